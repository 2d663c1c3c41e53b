// The smallest leaf on a cycle, of a pool that has one: for each expression, those that it reaches, and of their leaves the smallest that leads to it.
ghost use Rattle.std.specs.Prelude.{◌≡◌, ◌<◌, ◌≤◌};
ghost use Rattle.frames.specs.Order.{node_limit, expression_limit};
ghost use Rattle.pool.specs.Entries.{entries_in};
ghost use Rattle.pool.specs.Admission.{first};
ghost use Rattle.pool.specs.Shapes.{found_at};
ghost use Rattle.pool.specs.Ranking.{AllAsked};
ghost use Rattle.pool.specs.Cycles.{lead_in, reach, LeafAsked, LeafGiven, SpreadAsked, SpreadGiven, reached_in, BackAsked, BackGiven, CycleGiven};

use crate::entries::{entry_at, entry_count};
use crate::words::{child, id, root};
use frames::count::{EXPRESSION_LIMIT, NODE_LIMIT};
use frames::tables::{NODE_WORDS, count_at, kind_at};
use kinds::kind::Kind;

const REACHED: u8 = 1;

const FOLLOWED: u8 = 2;

// The expression that a leaf leads to.
pub fn lead(nodes: &[u64; NODE_WORDS], table: &[u8], i: usize) -> Option<usize>
    requires { i < node_limit }
    ensures { found_at result ≡ lead_in nodes.now (entries_in table.now) i }
{
    let kind = kind_at(nodes, i);
    if kind == Kind::EXP {
        return Some(id(nodes, i));
    }
    if kind == Kind::Q {
        let q = id(nodes, i);
        if entry_count(table) <= q {
            return None;
        }
        return Some(entry_at(table, q));
    }
    None
}

fn mark(marks: &mut [u8; EXPRESSION_LIMIT], v: usize)
    requires { v < expression_limit }
    ensures { marks.new ≡ reach marks.old v }
{
    if marks[v] == 0 {
        marks[v] = REACHED;
    }
}

// A leaf marks where it leads to. The least of `least` and the leaf, where it leads to the target.
fn mark_leaf(
    nodes: &[u64; NODE_WORDS],
    table: &[u8],
    marks: &mut [u8; EXPRESSION_LIMIT],
    target: usize,
    least: usize,
    i: usize,
) -> usize
    requires { LeafAsked nodes.now (entries_in table.now) i }
    ensures { LeafGiven nodes.now (entries_in table.now) target i marks.old least marks.new result }
{
    let Some(v) = lead(nodes, table, i) else {
        return least;
    };
    mark(marks, v);
    if v == target { least.min(i) } else { least }
}

// The leaves of a tree, from left to right.
fn mark_tree(
    nodes: &[u64; NODE_WORDS],
    table: &[u8],
    marks: &mut [u8; EXPRESSION_LIMIT],
    target: usize,
    least: usize,
    i: usize,
) -> usize
    requires { SpreadAsked nodes.now (entries_in table.now) i }
    ensures { SpreadGiven nodes.now (entries_in table.now) target i marks.old least marks.new result }
{
    let count = count_at(nodes, i);
    if count == 0 {
        return mark_leaf(nodes, table, marks, target, least, i);
    }
    let first = mark_tree(nodes, table, marks, target, least, child(nodes, i, 0));
    if count == 1 {
        return first;
    }
    let second = mark_tree(nodes, table, marks, target, first, child(nodes, i, 1));
    if count == 2 {
        return second;
    }
    mark_tree(nodes, table, marks, target, second, child(nodes, i, 2))
}

// The first expression that is reached and whose leaves are not marked yet.
fn first_reached(marks: &[u8; EXPRESSION_LIMIT], m: usize) -> Option<usize>
    requires { m ≤ expression_limit }
    ensures { found_at result ≡ first (reached_in marks.now) m }
{
    marks[..m].iter().position(|mark| *mark == REACHED)
}

// The least of `least` and the leaves that lead to an expression from those that it reaches, itself among them.
fn least_back(
    nodes: &[u64; NODE_WORDS],
    expressions: &[u64; EXPRESSION_LIMIT],
    table: &[u8],
    m: usize,
    target: usize,
    least: usize,
) -> usize
    requires { BackAsked nodes.now expressions.now (entries_in table.now) m target }
    ensures { BackGiven nodes.now expressions.now (entries_in table.now) m target least result }
{
    let mut marks = [0u8; EXPRESSION_LIMIT];
    let mut found = least;
    marks[target] = REACHED;
    // No `for`: what is followed marks more to follow.
    loop {
        let Some(e) = first_reached(&marks, m) else {
            return found;
        };
        marks[e] = FOLLOWED;
        found = mark_tree(
            nodes,
            table,
            &mut marks,
            target,
            found,
            root(expressions, e),
        );
    }
}

// `NODE_LIMIT`, with which the minimum begins, where there is no cycle.
pub fn first_on_cycle(
    nodes: &[u64; NODE_WORDS],
    expressions: &[u64; EXPRESSION_LIMIT],
    table: &[u8],
    m: usize,
) -> usize
    requires { AllAsked nodes.now expressions.now (entries_in table.now) m }
    ensures { CycleGiven nodes.now expressions.now (entries_in table.now) m result }
{
    let mut least = NODE_LIMIT;
    for e in 0..m {
        least = least_back(nodes, expressions, table, m, e, least);
    }
    least
}
