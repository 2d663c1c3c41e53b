// `generate_constraint_polynomial` from frames and two contexts: the caller vouches for nothing, and on a refusal nothing lent has changed.
ghost use Rattle.codegen.specs.Building.{lists};
ghost use Rattle.constraint_build.specs.Both.{lent};
ghost use Rattle.constraint_choice.specs.Choosing.{asked_by};
ghost use Rattle.starkinfo_cp_prover.specs.Polynomial.{GeneratedIs};

use crate::answer::Generated;
use constraint_build::make::make_lists;
use constraint_choice::answer::Asking;
use constraint_choice::entry::decide;
use constraint_frames::members::list_members;
use frames::count::{EXPRESSION_LIMIT, NODE_LIMIT};
use frames::tables::NODE_WORDS;
use kinds::refusal::Refused;
use sets::SET_WORDS;

// Frames, each behind its length; requests among them are read and not served. `context` with its list is the caller's, for step3, and the other for step42ns; each has room
// for its first, i and last lists. The frames of the pool with the constraint stand at the front of `out`, and the intermediates in `chosen`.
// Ten slices and no struct for each context, as in constraint_build::make.
pub fn generate_constraint_polynomial(
    s: &[u8],
    identities: &[u64],
    a: Asking,
    context: &mut [u8],
    list: &mut [u8],
    first: &mut [u8],
    i: &mut [u8],
    last: &mut [u8],
    context_2ns: &mut [u8],
    list_2ns: &mut [u8],
    first_2ns: &mut [u8],
    i_2ns: &mut [u8],
    last_2ns: &mut [u8],
    out: &mut [u8],
    chosen: &mut [u64; SET_WORDS],
) -> Result<Generated, Refused>
    ensures { GeneratedIs s.now (asked_by identities.now a) (lent context.old list.old (lists first.old i.old last.old)) (lent context_2ns.old list_2ns.old (lists first_2ns.old i_2ns.old last_2ns.old)) out.old chosen.old (lent context.new list.new (lists first.new i.new last.new)) (lent context_2ns.new list_2ns.new (lists first_2ns.new i_2ns.new last_2ns.new)) out.new chosen.new result }
{
    let mut nodes = [0u64; NODE_WORDS];
    let mut literals = [0u64; NODE_LIMIT];
    let mut expressions = [0u64; EXPRESSION_LIMIT];
    let mut set = [0u64; SET_WORDS];
    let found = decide(
        s,
        identities,
        a,
        context,
        list.len(),
        context_2ns,
        list_2ns.len(),
        &mut nodes,
        &mut literals,
        &mut expressions,
        &mut set,
    )?;
    let mut members = [0u64; EXPRESSION_LIMIT];
    let count = list_members(&set, &mut members);
    let made = make_lists(
        &nodes,
        &literals,
        &expressions,
        &members[..count],
        context,
        list,
        first,
        i,
        last,
        context_2ns,
        list_2ns,
        first_2ns,
        i_2ns,
        last_2ns,
        found.nodes,
        found.expressions,
        out,
    )?;
    *chosen = set;
    Ok(Generated {
        q: found.q,
        visits: found.visits,
        sizes: made.sizes,
        bytes: made.bytes,
    })
}
