// The constraint added, or a refusal that leaves the tables as they were.
ghost use Rattle.std.specs.Prelude.{◌≡◌};
ghost use Rattle.constraint_pool.specs.Extending.{ExtendAsks, Gives};

use crate::extend::add_constraint;
use crate::judge::{Columns, judge};
use frames::count::{EXPRESSION_LIMIT, NODE_LIMIT};
use frames::tables::NODE_WORDS;
use kinds::refusal::Refusal;

// After the first `n` nodes and `m` expressions of the tables; `members` are the intermediates in ascending order. How many nodes there are
// with the constraint, whose root is the last.
pub fn extend(
    nodes: &mut [u64; NODE_WORDS],
    literals: &mut [u64; NODE_LIMIT],
    expressions: &mut [u64; EXPRESSION_LIMIT],
    identities: &[u64],
    members: &[u64],
    vc: u16,
    c: Columns,
    n: usize,
    m: usize,
) -> Result<usize, Refusal>
    requires { ExtendAsks nodes.old literals.old expressions.old identities.now members.now n m }
    ensures { Gives nodes.old literals.old expressions.old identities.now members.now vc c n m nodes.new literals.new expressions.new result }
{
    judge(nodes, expressions, identities, members, c, n, m)?;
    Ok(add_constraint(
        nodes,
        literals,
        expressions,
        identities,
        members,
        vc,
        c.commitments,
        n,
        m,
    ))
}
