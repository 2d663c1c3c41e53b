// A tree of the pool, copied to new nodes.
ghost use Rattle.std.specs.Prelude.{◌≡◌, ◌<◌, ◌-◌, [], ◌∷◌};
ghost use Rattle.frames.specs.Order.{node_limit};
ghost use Rattle.constraint_pool.specs.Nodes.{moved};
ghost use Rattle.constraint_pool.specs.Asked.{Appends, CopyAsked, CopyGiven};

use frames::count::NODE_LIMIT;
use frames::node::Node;
use frames::tables::{NODE_WORDS, node_at, put_node};

// A child that is not there is 0.
const NO_CHILD: u16 = 0;

// The same node with other children.
fn with_children(x: Node, c0: u16, c1: u16, c2: u16) -> Node
    ensures { result ≡ moved x c0 c1 c2 }
{
    Node { c0, c1, c2, ..x }
}

// The last node before number `n`.
pub fn preceding(n: usize) -> u16
    requires { (0 < n) × (n < 65536) }
    ensures { result ≡ n - 1 }
{
    (n - 1) as u16
}

// Answers the next number.
pub fn append(
    nodes: &mut [u64; NODE_WORDS],
    literals: &mut [u64; NODE_LIMIT],
    at: usize,
    x: Node,
) -> usize
    requires { at < node_limit }
    ensures { Appends nodes.old literals.old at (x ∷ []) nodes.new literals.new result }
{
    put_node(nodes, literals, at, x);
    at + 1
}

// The tree at node `i`, copied to numbers from `at` on in postorder, left child first. Answers the next number.
pub fn copy_tree(
    nodes: &mut [u64; NODE_WORDS],
    literals: &mut [u64; NODE_LIMIT],
    at: usize,
    i: usize,
) -> usize
    requires { CopyAsked nodes.old literals.old at i }
    ensures { CopyGiven nodes.old literals.old at i nodes.new literals.new result }
{
    let x = node_at(nodes, literals, i);
    if x.count == 0 {
        let leaf = with_children(x, NO_CHILD, NO_CHILD, NO_CHILD);
        return append(nodes, literals, at, leaf);
    }
    let a = copy_tree(nodes, literals, at, x.c0 as usize);
    let c0 = preceding(a);
    if x.count == 1 {
        return append(nodes, literals, a, with_children(x, c0, NO_CHILD, NO_CHILD));
    }
    let b = copy_tree(nodes, literals, a, x.c1 as usize);
    let c1 = preceding(b);
    if x.count == 2 {
        return append(nodes, literals, b, with_children(x, c0, c1, NO_CHILD));
    }
    let c = copy_tree(nodes, literals, b, x.c2 as usize);
    append(nodes, literals, c, with_children(x, c0, c1, preceding(c)))
}
