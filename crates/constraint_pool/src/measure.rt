// How many nodes the constraint has, before any is written. What is above the limit of nodes counts as one above it.
ghost use Rattle.std.specs.Prelude.{◌≡◌, ◌≤◌, min};
ghost use Rattle.constraint_pool.specs.Sizes.{over, SizeAsked, SizeGiven, MembersSizeAsked, MembersSizeGiven};

use frames::count::{EXPRESSION_LIMIT, NODE_LIMIT};
use frames::tables::{NODE_WORDS, count_at};
use pool::words::{child, root};

const OVER: usize = NODE_LIMIT + 1;

// What joins a member: vc and the product, its column, the difference and the sum.
const MEMBER_NODES: usize = 5;

pub fn capped(n: usize) -> usize
    ensures { result ≡ min over n }
{
    n.min(OVER)
}

// Of the tree at node `i`.
fn tree_size(nodes: &[u64; NODE_WORDS], i: usize) -> usize
    requires { SizeAsked nodes.now i }
    ensures { SizeGiven nodes.now i result }
{
    let count = count_at(nodes, i);
    if count == 0 {
        return 1;
    }
    let a = tree_size(nodes, child(nodes, i, 0));
    if count == 1 {
        return capped(a + 1);
    }
    let b = tree_size(nodes, child(nodes, i, 1));
    if count == 2 {
        return capped(a + b + 1);
    }
    let c = tree_size(nodes, child(nodes, i, 2));
    capped(a + b + c + 1)
}

pub fn members_size(
    nodes: &[u64; NODE_WORDS],
    expressions: &[u64; EXPRESSION_LIMIT],
    members: &[u64],
) -> usize
    requires { MembersSizeAsked nodes.now expressions.now members.now }
    ensures { MembersSizeGiven nodes.now expressions.now members.now result }
{
    let mut size: usize = 0;
    for e in members {
        let body = root(expressions, *e as usize);
        size = capped(size + tree_size(nodes, body) + MEMBER_NODES);
    }
    size
}
