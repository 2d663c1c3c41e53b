// Whether the constraint may be added: the limits of the pool and of columns (9), then the counts (11).
ghost use Rattle.std.specs.Prelude.{◌≡◌, ◌<◌, length};
ghost use Rattle.constraint_pool.specs.Sizes.{WholeSizeAsked, WholeSizeGiven, columns_fit, counts_fit};
ghost use Rattle.constraint_pool.specs.Judging.{JudgeAsked, JudgeGiven};

use crate::measure::{capped, members_size};
use frames::count::{EXPRESSION_LIMIT, NODE_LIMIT};
use frames::tables::NODE_WORDS;
use kinds::refusal::Refusal;

// A column's number has 16 bits.
const COLUMN_LIMIT: usize = 65536;

// The columns and counts of a plan, and how many quotients it has.
#[derive(Clone, Copy)]
pub struct Columns {
    pub commitments: usize,
    pub n_cm1: usize,
    pub n_cm2: usize,
    pub quotients: usize,
}

// How many nodes there are with the constraint. The number of identities has no limit but a slice's.
fn whole_size(
    nodes: &[u64; NODE_WORDS],
    expressions: &[u64; EXPRESSION_LIMIT],
    identities: &[u64],
    members: &[u64],
    n: usize,
) -> usize
    requires { WholeSizeAsked nodes.now expressions.now identities.now members.now n }
    ensures { WholeSizeGiven nodes.now expressions.now identities.now members.now n result }
{
    if NODE_LIMIT < identities.len() {
        return NODE_LIMIT + 1;
    }
    let others = identities.len() - 1;
    capped(n + 1 + 4 * others + members_size(nodes, expressions, members))
}

fn columns_fit(c: Columns, members: usize) -> bool
    ensures { result ≡ columns_fit c members }
{
    c.commitments <= COLUMN_LIMIT
        && members <= COLUMN_LIMIT - c.commitments
        && c.quotients <= COLUMN_LIMIT - c.commitments - members
}

fn counts_fit(c: Columns) -> bool
    ensures { result ≡ counts_fit c }
{
    c.n_cm1 <= c.commitments && c.n_cm2 <= c.commitments - c.n_cm1
}

pub fn judge(
    nodes: &[u64; NODE_WORDS],
    expressions: &[u64; EXPRESSION_LIMIT],
    identities: &[u64],
    members: &[u64],
    c: Columns,
    n: usize,
    m: usize,
) -> Result<(), Refusal>
    requires { JudgeAsked nodes.now expressions.now identities.now members.now n m }
    ensures { JudgeGiven nodes.now expressions.now identities.now members.now c n m result }
{
    if NODE_LIMIT < whole_size(nodes, expressions, identities, members, n) {
        return Err(Refusal::Full);
    }
    if EXPRESSION_LIMIT <= m || !columns_fit(c, members.len()) {
        return Err(Refusal::Full);
    }
    if !counts_fit(c) {
        return Err(Refusal::Counts);
    }
    Ok(())
}
