// The full degree of every node, each computed once: a node after its children, an exp leaf after the body of its expression.
ghost use Rattle.full_degrees.specs.Filling.{TreeAsked, NodeGiven, TreeGiven, FillAsked, FillGiven};

use crate::degree::{UNKNOWN, leaf_degree, times};
use frames::count::{EXPRESSION_LIMIT, NODE_LIMIT};
use frames::tables::{NODE_WORDS, kind_at};
use kinds::kind::Kind;
use pool::words::{child, id, root};

// Of the tree at node i, whose leaves lead to others to no more than so many levels of expressions.
#[cycle(node_degree_tree_degree)]
fn tree_degree(
    nodes: &[u64; NODE_WORDS],
    expressions: &[u64; EXPRESSION_LIMIT],
    full: &mut [u8; NODE_LIMIT],
    levels: usize,
    i: usize,
) -> u8
    requires { TreeAsked nodes.now expressions.now full.old levels i }
    ensures { TreeGiven nodes.now expressions.now full.old full.new levels i result }
{
    let seen = full[i];
    if seen != UNKNOWN {
        return seen;
    }
    let degree = node_degree(nodes, expressions, full, levels, i);
    full[i] = degree;
    degree
}

// By the kind of the node.
#[cycle(node_degree_tree_degree)]
fn node_degree(
    nodes: &[u64; NODE_WORDS],
    expressions: &[u64; EXPRESSION_LIMIT],
    full: &mut [u8; NODE_LIMIT],
    levels: usize,
    i: usize,
) -> u8
    requires { TreeAsked nodes.now expressions.now full.old levels i }
    ensures { NodeGiven nodes.now expressions.now full.old full.new levels i result }
{
    let kind = kind_at(nodes, i);
    match kind {
        Kind::EXP => {
            let body = root(expressions, id(nodes, i));
            tree_degree(nodes, expressions, full, levels - 1, body)
        }
        Kind::ADD..=Kind::SUB => {
            let a = tree_degree(nodes, expressions, full, levels, child(nodes, i, 0));
            let b = tree_degree(nodes, expressions, full, levels, child(nodes, i, 1));
            1u8.max(a.max(b))
        }
        Kind::MUL => {
            let a = tree_degree(nodes, expressions, full, levels, child(nodes, i, 0));
            let b = tree_degree(nodes, expressions, full, levels, child(nodes, i, 1));
            times(a, b)
        }
        Kind::MULADD => {
            let a = tree_degree(nodes, expressions, full, levels, child(nodes, i, 0));
            let b = tree_degree(nodes, expressions, full, levels, child(nodes, i, 1));
            let c = tree_degree(nodes, expressions, full, levels, child(nodes, i, 2));
            times(a, b).max(c)
        }
        Kind::ADDC..=Kind::NEG => {
            let a = tree_degree(nodes, expressions, full, levels, child(nodes, i, 0));
            1u8.max(a)
        }
        _ => leaf_degree(kind),
    }
}

// Of the first n nodes, where m expressions stand in the tables.
pub fn fill(
    nodes: &[u64; NODE_WORDS],
    expressions: &[u64; EXPRESSION_LIMIT],
    full: &mut [u8; NODE_LIMIT],
    n: usize,
    m: usize,
)
    requires { FillAsked nodes.now expressions.now full.old n m }
    ensures { FillGiven nodes.now expressions.now full.new n m }
{
    for i in 0..n {
        tree_degree(nodes, expressions, full, m, i);
    }
}
