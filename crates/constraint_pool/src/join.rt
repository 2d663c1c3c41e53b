// An identity, or a member's body minus its column, joined to what stands before: vc·c + e.
ghost use Rattle.std.specs.Prelude.{◌≡◌, ◌<◌, [], ◌∷◌};
ghost use Rattle.kinds.specs.KindBytes as kind;
ghost use Rattle.frames.specs.Order.{node_limit};
ghost use Rattle.constraint_pool.specs.Nodes.{leaf_node, pair_node, scaled, identity_nodes};
ghost use Rattle.constraint_pool.specs.Asked.{Appends, ScaleAsks, IdentityAsks, MemberAsked, MemberGiven};

use crate::copy::{append, copy_tree, preceding};
use frames::count::NODE_LIMIT;
use frames::node::Node;
use frames::tables::NODE_WORDS;
use kinds::kind::Kind;

const PAIR: u8 = 2;

fn leaf(kind: u8, id: u16) -> Node
    ensures { result ≡ leaf_node kind id }
{
    Node {
        kind,
        next: 0,
        id,
        count: 0,
        c0: 0,
        c1: 0,
        c2: 0,
        sign: 0,
        magnitude: 0,
    }
}

fn pair(kind: u8, a: u16, b: u16) -> Node
    ensures { result ≡ pair_node kind a b }
{
    Node {
        kind,
        next: 0,
        id: 0,
        count: PAIR,
        c0: a,
        c1: b,
        c2: 0,
        sign: 0,
        magnitude: 0,
    }
}

// vc times what stands before `at`.
fn scale(
    nodes: &mut [u64; NODE_WORDS],
    literals: &mut [u64; NODE_LIMIT],
    at: usize,
    vc: u16,
) -> usize
    requires { ScaleAsks at }
    ensures { Appends nodes.old literals.old at (scaled vc at) nodes.new literals.new result }
{
    let product = append(nodes, literals, at, leaf(Kind::CHALLENGE, vc));
    append(
        nodes,
        literals,
        product,
        pair(Kind::MUL, at as u16, preceding(at)),
    )
}

pub fn first_identity(
    nodes: &mut [u64; NODE_WORDS],
    literals: &mut [u64; NODE_LIMIT],
    at: usize,
    e: u16,
) -> usize
    requires { at < node_limit }
    ensures { Appends nodes.old literals.old at (leaf_node kind.exp e ∷ []) nodes.new literals.new result }
{
    append(nodes, literals, at, leaf(Kind::EXP, e))
}

pub fn add_identity(
    nodes: &mut [u64; NODE_WORDS],
    literals: &mut [u64; NODE_LIMIT],
    at: usize,
    vc: u16,
    e: u16,
) -> usize
    requires { IdentityAsks at }
    ensures { Appends nodes.old literals.old at (identity_nodes vc at e) nodes.new literals.new result }
{
    let own = scale(nodes, literals, at, vc);
    let sum = append(nodes, literals, own, leaf(Kind::EXP, e));
    append(
        nodes,
        literals,
        sum,
        pair(Kind::ADD, preceding(own), own as u16),
    )
}

// The body at node `root`, copied, minus column `cm`.
pub fn add_member(
    nodes: &mut [u64; NODE_WORDS],
    literals: &mut [u64; NODE_LIMIT],
    at: usize,
    vc: u16,
    root: usize,
    cm: u16,
) -> usize
    requires { MemberAsked nodes.old literals.old at root }
    ensures { MemberGiven nodes.old literals.old at vc root cm nodes.new literals.new result }
{
    let own = scale(nodes, literals, at, vc);
    let product = preceding(own);
    let column = copy_tree(nodes, literals, own, root);
    let body = preceding(column);
    let difference = append(nodes, literals, column, leaf(Kind::CM, cm));
    let sum = append(
        nodes,
        literals,
        difference,
        pair(Kind::SUB, body, column as u16),
    );
    append(
        nodes,
        literals,
        sum,
        pair(Kind::ADD, product, difference as u16),
    )
}
