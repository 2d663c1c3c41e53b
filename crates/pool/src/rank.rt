// Ranks expressions from leaf to leaf, depth first, and finds a walk that comes back to where it began.
ghost use Rattle.std.specs.Prelude.{◌≡◌, length};
ghost use Rattle.pool.specs.Entries.{entries_in};
ghost use Rattle.pool.specs.Ranking.{VisitAsked, VisitGiven, WalkAsked, WalkGiven, AllAsked, AllGiven};

use crate::entries::{entry_at, entry_count};
use crate::words::{child, id, root};
use frames::count::EXPRESSION_LIMIT;
use frames::tables::{NODE_WORDS, count_at, kind_at};
use kinds::kind::Kind;

const REACHED: u64 = 1;

const RANKED: u64 = 2;

// An expression: its leaves first, then its own rank, the number of those ranked before it. How many are ranked then; None on a walk that
// comes back to where it began.
#[cycle(visit_walk)]
fn visit(
    nodes: &[u64; NODE_WORDS],
    expressions: &[u64; EXPRESSION_LIMIT],
    table: &[u8],
    ranks: &mut [u64; EXPRESSION_LIMIT],
    done: usize,
    e: usize,
) -> Option<usize>
    requires { VisitAsked nodes.now expressions.now (entries_in table.now) ranks.old done e }
    ensures { VisitGiven nodes.now expressions.now (entries_in table.now) ranks.old ranks.new done e result }
{
    let rank = ranks[e];
    if RANKED <= rank {
        return Some(done);
    }
    if rank == REACHED {
        return None;
    }
    ranks[e] = REACHED;
    let before = walk(nodes, expressions, table, ranks, done, root(expressions, e))?;
    ranks[e] = RANKED + before as u64;
    Some(before + 1)
}

// Every expression that the leaves of a tree lead to, from left to right.
#[cycle(visit_walk)]
fn walk(
    nodes: &[u64; NODE_WORDS],
    expressions: &[u64; EXPRESSION_LIMIT],
    table: &[u8],
    ranks: &mut [u64; EXPRESSION_LIMIT],
    done: usize,
    i: usize,
) -> Option<usize>
    requires { WalkAsked nodes.now expressions.now (entries_in table.now) ranks.old done i }
    ensures { WalkGiven nodes.now expressions.now (entries_in table.now) ranks.old ranks.new done i result }
{
    let kind = kind_at(nodes, i);
    if kind == Kind::EXP {
        return visit(nodes, expressions, table, ranks, done, id(nodes, i));
    }
    if kind == Kind::Q {
        let q = id(nodes, i);
        if entry_count(table) <= q {
            return Some(done);
        }
        return visit(nodes, expressions, table, ranks, done, entry_at(table, q));
    }
    let count = count_at(nodes, i);
    if count == 0 {
        return Some(done);
    }
    let first = walk(nodes, expressions, table, ranks, done, child(nodes, i, 0))?;
    if count == 1 {
        return Some(first);
    }
    let second = walk(nodes, expressions, table, ranks, first, child(nodes, i, 1))?;
    if count == 2 {
        return Some(second);
    }
    walk(nodes, expressions, table, ranks, second, child(nodes, i, 2))
}

// The ranks of all expressions, in order, with 2 added to each; None where some lead back to where they began.
pub fn rank_all(
    nodes: &[u64; NODE_WORDS],
    expressions: &[u64; EXPRESSION_LIMIT],
    table: &[u8],
    m: usize,
) -> Option<[u64; EXPRESSION_LIMIT]>
    requires { AllAsked nodes.now expressions.now (entries_in table.now) m }
    ensures { AllGiven nodes.now expressions.now (entries_in table.now) m result }
{
    let mut ranks = [0u64; EXPRESSION_LIMIT];
    let mut done: usize = 0;
    for e in 0..m {
        done = visit(nodes, expressions, table, &mut ranks, done, e)?;
    }
    Some(ranks)
}
