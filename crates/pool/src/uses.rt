// The uses of each node, as a child or as a root, each counted up to two.
ghost use Rattle.frames.specs.Order.{node_limit, expression_limit};
ghost use Rattle.std.specs.Prelude.{[], ◌∷◌, ◌<◌, ◌≤◌};
ghost use Rattle.pool.specs.Tabled.{children_in};
ghost use Rattle.pool.specs.Shapes.{Tallies, child_uses_in, root_uses_in};

use crate::words::{child, root};
use frames::count::{EXPRESSION_LIMIT, NODE_LIMIT};
use frames::tables::{NODE_WORDS, count_at};

// A number that is no node's is not counted.
fn tally(uses: &mut [u8; NODE_LIMIT], k: usize)
    ensures { Tallies uses.old uses.new (k ∷ []) }
{
    if k < NODE_LIMIT && uses[k] < 2 {
        uses[k] += 1;
    }
}

fn tally_children(nodes: &[u64; NODE_WORDS], uses: &mut [u8; NODE_LIMIT], i: usize)
    requires { i < node_limit }
    ensures { Tallies uses.old uses.new (children_in nodes.now i) }
{
    let count = count_at(nodes, i);
    if count == 0 {
        return;
    }
    tally(uses, child(nodes, i, 0));
    if count == 1 {
        return;
    }
    tally(uses, child(nodes, i, 1));
    if count == 2 {
        return;
    }
    tally(uses, child(nodes, i, 2));
}

pub fn tally_nodes(nodes: &[u64; NODE_WORDS], uses: &mut [u8; NODE_LIMIT], n: usize)
    requires { n ≤ node_limit }
    ensures { Tallies uses.old uses.new (child_uses_in nodes.now n) }
{
    for i in 0..n {
        tally_children(nodes, uses, i);
    }
}

pub fn tally_roots(expressions: &[u64; EXPRESSION_LIMIT], uses: &mut [u8; NODE_LIMIT], m: usize)
    requires { m ≤ expression_limit }
    ensures { Tallies uses.old uses.new (root_uses_in expressions.now m) }
{
    for e in 0..m {
        tally(uses, root(expressions, e));
    }
}
