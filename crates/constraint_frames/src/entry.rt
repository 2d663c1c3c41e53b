// The pool with the constraint, from frames. The caller vouches for nothing, and on a refusal nothing lent has changed.
ghost use Rattle.constraint_frames.specs.Extension.{AdmittedAsks, AdmittedGiven, ReadAsks, ReadGiven, ConstrainGiven};

use crate::answer::Numbers;
use crate::members::{is_good, list_members};
use constraint_pool::entry::extend;
use constraint_pool::judge::Columns;
use degree_search::admitted::all_below;
use frames::count::{Counts, EXPRESSION_LIMIT, NODE_LIMIT, REQUEST_LIMIT};
use frames::read::fill;
use frames::tables::NODE_WORDS;
use kinds::refusal::{Refusal, Refused};
use pool::admit::admit;
use pool_frames::pool::write_pool;
use sets::SET_WORDS;

// An admitted pool of `n` nodes and `m` expressions, in tables of the caller's own.
fn extend_admitted(
    nodes: &mut [u64; NODE_WORDS],
    literals: &mut [u64; NODE_LIMIT],
    expressions: &mut [u64; EXPRESSION_LIMIT],
    identities: &[u64],
    members: &[u64],
    vc: u16,
    c: Columns,
    n: usize,
    m: usize,
    out: &mut [u8],
) -> Result<Numbers, Refused>
    requires { AdmittedAsks nodes.old literals.old expressions.old members.now n m }
    ensures { AdmittedGiven nodes.old literals.old expressions.old identities.now members.now vc c n m out.old out.new result }
{
    if identities.is_empty() {
        return Err(Refusal::NoIdentity.into());
    }
    if !all_below(identities, m) {
        return Err(Refusal::NotThere.into());
    }
    let end = extend(
        nodes,
        literals,
        expressions,
        identities,
        members,
        vc,
        c,
        n,
        m,
    )?;
    let size = write_pool(nodes, literals, expressions, end, m + 1, out).ok_or(Refusal::Full)?;
    Ok(Numbers::of(c, members.len(), m, size))
}

fn extend_read(
    nodes: &mut [u64; NODE_WORDS],
    literals: &mut [u64; NODE_LIMIT],
    expressions: &mut [u64; EXPRESSION_LIMIT],
    identities: &[u64],
    chosen: &[u64; SET_WORDS],
    vc: u16,
    c: Columns,
    k: Counts,
    out: &mut [u8],
) -> Result<Numbers, Refused>
    requires { ReadAsks nodes.old literals.old expressions.old k }
    ensures { ReadGiven nodes.old literals.old expressions.old identities.now chosen.now vc c k out.old out.new result }
{
    let mut members = [0u64; EXPRESSION_LIMIT];
    let count = list_members(chosen, &mut members);
    if !is_good(chosen, &members[..count], k.expressions) {
        return Err(Refusal::Malformed.into());
    }
    admit(nodes, expressions, &[], k.nodes, k.expressions)?;
    extend_admitted(
        nodes,
        literals,
        expressions,
        identities,
        &members[..count],
        vc,
        c,
        k.nodes,
        k.expressions,
        out,
    )
}

// Frames, each behind its length; requests among them are read and not served. `chosen` is the set as a search gave it: one that is not good for this pool is a
// malformed record. The frames of the pool with the constraint stand at the front of `out`.
pub fn constrain_pool(
    s: &[u8],
    identities: &[u64],
    chosen: &[u64; SET_WORDS],
    vc: u16,
    c: Columns,
    out: &mut [u8],
) -> Result<Numbers, Refused>
    ensures { ConstrainGiven s.now identities.now chosen.now vc c out.old out.new result }
{
    let mut nodes = [0u64; NODE_WORDS];
    let mut literals = [0u64; NODE_LIMIT];
    let mut expressions = [0u64; EXPRESSION_LIMIT];
    let mut requests = [0u64; REQUEST_LIMIT];
    let k = fill(
        s,
        &mut nodes,
        &mut literals,
        &mut expressions,
        &mut requests,
    )?;
    extend_read(
        &mut nodes,
        &mut literals,
        &mut expressions,
        identities,
        chosen,
        vc,
        c,
        k,
        out,
    )
}
