// The choice from frames and two contexts: the caller vouches for nothing.
ghost use Rattle.constraint_pool.specs.Added.{Wide};
ghost use Rattle.constraint_choice.specs.Choosing.{asked_by, contexts, tables, ReadAsks, ReadGiven, DecideIs};

use crate::admitted::choose;
use crate::answer::{Asking, Chosen};
use context::check;
use frames::count::{Counts, EXPRESSION_LIMIT, NODE_LIMIT, REQUEST_LIMIT};
use frames::read::fill;
use frames::tables::NODE_WORDS;
use kinds::refusal::{Refusal, Refused};
use pool::admit::admit;
use sets::SET_WORDS;

// Both contexts are good for the pool as it was lent. A context stands beside the bytes of its list.
fn decide_read(
    nodes: &mut [u64; NODE_WORDS],
    literals: &mut [u64; NODE_LIMIT],
    expressions: &mut [u64; EXPRESSION_LIMIT],
    identities: &[u64],
    a: Asking,
    context: &[u8],
    bytes: usize,
    context_2ns: &[u8],
    bytes_2ns: usize,
    k: Counts,
    set: &mut [u64; SET_WORDS],
) -> Result<Chosen, Refused>
    requires { ReadAsks nodes.old literals.old expressions.old k }
    ensures { ReadGiven nodes.old literals.old expressions.old (asked_by identities.now a) (contexts context.now bytes context_2ns.now bytes_2ns) k (tables set.new nodes.new literals.new expressions.new) result }
{
    if !check::is_good(context, bytes, k.expressions)
        || !check::is_good(context_2ns, bytes_2ns, k.expressions)
    {
        return Err(Refusal::Malformed.into());
    }
    admit(nodes, expressions, &[], k.nodes, k.expressions)?;
    choose(nodes, literals, expressions, identities, a, k, set)
}

// Frames, each behind its length; requests among them are read and not served. Where a set is chosen it stands in `set`, and the pool with the constraint in the other tables.
// The tables are lent one by one, as each crate below takes them: a struct here would be taken apart at once, and so would one of a context and the bytes of its list.
pub fn decide(
    s: &[u8],
    identities: &[u64],
    a: Asking,
    context: &[u8],
    bytes: usize,
    context_2ns: &[u8],
    bytes_2ns: usize,
    nodes: &mut [u64; NODE_WORDS],
    literals: &mut [u64; NODE_LIMIT],
    expressions: &mut [u64; EXPRESSION_LIMIT],
    set: &mut [u64; SET_WORDS],
) -> Result<Chosen, Refused>
    requires { Wide nodes.old literals.old expressions.old }
    ensures { DecideIs s.now (asked_by identities.now a) (contexts context.now bytes context_2ns.now bytes_2ns) (tables set.new nodes.new literals.new expressions.new) result }
{
    let mut requests = [0u64; REQUEST_LIMIT];
    let k = fill(s, nodes, literals, expressions, &mut requests)?;
    decide_read(
        nodes,
        literals,
        expressions,
        identities,
        a,
        context,
        bytes,
        context_2ns,
        bytes_2ns,
        k,
        set,
    )
}
