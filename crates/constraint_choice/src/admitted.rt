// An admitted pool searched, and the constraint of the set that was chosen added to its tables.
ghost use Rattle.constraint_choice.specs.Choosing.{asked_by, tables, AdmittedAsks, AdmittedGiven, ExtendAsked, ExtendGiven};

use crate::answer::{Asking, Chosen};
use constraint_frames::members::list_members;
use constraint_pool::entry::extend;
use degree_search::admitted::search_admitted;
use frames::count::{Counts, EXPRESSION_LIMIT, NODE_LIMIT};
use frames::tables::NODE_WORDS;
use kinds::refusal::{Refusal, Refused};
use sets::SET_WORDS;

// The set of a search that gave q.
fn extend_chosen(
    nodes: &mut [u64; NODE_WORDS],
    literals: &mut [u64; NODE_LIMIT],
    expressions: &mut [u64; EXPRESSION_LIMIT],
    identities: &[u64],
    set: &[u64; SET_WORDS],
    a: Asking,
    q: u64,
    k: Counts,
) -> Result<usize, Refusal>
    requires { ExtendAsked nodes.old literals.old expressions.old identities.now set.now k }
    ensures { ExtendGiven nodes.old literals.old expressions.old identities.now a q k (tables set.now nodes.new literals.new expressions.new) result }
{
    let mut members = [0u64; EXPRESSION_LIMIT];
    let count = list_members(set, &mut members);
    extend(
        nodes,
        literals,
        expressions,
        identities,
        &members[..count],
        a.vc,
        a.before.with_quotients(q),
        k.nodes,
        k.expressions,
    )
}

pub fn choose(
    nodes: &mut [u64; NODE_WORDS],
    literals: &mut [u64; NODE_LIMIT],
    expressions: &mut [u64; EXPRESSION_LIMIT],
    identities: &[u64],
    a: Asking,
    k: Counts,
    set: &mut [u64; SET_WORDS],
) -> Result<Chosen, Refused>
    requires { AdmittedAsks nodes.old literals.old expressions.old k }
    ensures { AdmittedGiven nodes.old literals.old expressions.old (asked_by identities.now a) k (tables set.new nodes.new literals.new expressions.new) result }
{
    let found = search_admitted(
        nodes,
        expressions,
        identities,
        set,
        a.n_bits,
        a.n_bits_ext,
        a.limit,
        k.nodes,
        k.expressions,
    )?;
    let end = extend_chosen(nodes, literals, expressions, identities, set, a, found.q, k)?;
    Ok(Chosen {
        q: found.q,
        visits: found.visits,
        nodes: end,
        expressions: k.expressions + 1,
    })
}
