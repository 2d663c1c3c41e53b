// The frames of all nodes and expressions of a pool.
ghost use Rattle.std.specs.Prelude.{◌≡◌, ◌+◌, ◌≤◌, length};
ghost use Rattle.frames.specs.Order.{node_limit, expression_limit};
ghost use Rattle.frames.specs.Written.{frames_of};
ghost use Rattle.pool_frames.specs.Frames.{Puts};
ghost use Rattle.pool_frames.specs.Pools.{pool_in, nodes_bytes, expressions_bytes, NodesAsk, ExpressionsAsk, PoolAsks, Writes};

use crate::frame::{node_size, put_expression, put_node};
use frames::count::{EXPRESSION_LIMIT, NODE_LIMIT};
use frames::tables::{NODE_WORDS, expression_at, node_at};

// A length before each frame.
const LENGTH_SIZE: usize = 2;

// An expression's frame and its length.
const EXPRESSION_SIZE: usize = 6;

fn nodes_size(nodes: &[u64; NODE_WORDS], literals: &[u64; NODE_LIMIT], n: usize) -> usize
    requires { n ≤ node_limit }
    ensures { result ≡ length (nodes_bytes nodes.now literals.now n) }
{
    let mut size: usize = 0;
    for k in 0..n {
        size += LENGTH_SIZE + node_size(node_at(nodes, literals, k));
    }
    size
}

fn put_nodes(
    nodes: &[u64; NODE_WORDS],
    literals: &[u64; NODE_LIMIT],
    n: usize,
    out: &mut [u8],
) -> usize
    requires { NodesAsk nodes.now literals.now n out.old }
    ensures { Puts out.old 0 (nodes_bytes nodes.now literals.now n) out.new result }
{
    let mut at: usize = 0;
    for k in 0..n {
        at = put_node(out, at, node_at(nodes, literals, k));
    }
    at
}

fn put_expressions(
    expressions: &[u64; EXPRESSION_LIMIT],
    m: usize,
    out: &mut [u8],
    from: usize,
) -> usize
    requires { ExpressionsAsk m out.old from }
    ensures { Puts out.old from (expressions_bytes expressions.now m) out.new result }
{
    let mut at = from;
    for k in 0..m {
        at = put_expression(out, at, expression_at(expressions, k));
    }
    at
}

// The frames of the first `n` nodes and the first `m` expressions of the tables, at the front of `out`, and how many bytes they are. All or nothing: None
// where they do not fit, and `out` has not changed.
pub fn write_pool(
    nodes: &[u64; NODE_WORDS],
    literals: &[u64; NODE_LIMIT],
    expressions: &[u64; EXPRESSION_LIMIT],
    n: usize,
    m: usize,
    out: &mut [u8],
) -> Option<usize>
    requires { PoolAsks n m }
    ensures { Writes (frames_of (pool_in nodes.now literals.now expressions.now n m)) out.old result out.new }
{
    let size = nodes_size(nodes, literals, n) + EXPRESSION_SIZE * m;
    if out.len() < size {
        return None;
    }
    let end = put_nodes(nodes, literals, n, out);
    Some(put_expressions(expressions, m, out, end))
}
