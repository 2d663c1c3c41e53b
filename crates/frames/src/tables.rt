// Tables of packed words: for node n its head at 2n and its children at 2n + 1 of `nodes`, and the magnitude of its literal at n of `literals`;
// a word for each expression and each request.
ghost use Rattle.std.specs.Prelude.{◌≡◌, ◌<◌, set};
ghost use Rattle.frames.specs.Order.{node_limit, expression_limit, request_limit};
ghost use Rattle.frames.specs.Tables.{head_word, child_word, expression_word, request_word, kind_in, next_in, id_in, count_in, sign_in, child_in, node_in, expression_in, request_in, put_node};

use crate::count::{EXPRESSION_LIMIT, NODE_LIMIT, REQUEST_LIMIT};
use crate::node::Node;
use crate::rest::{Expression, Request};

pub const NODE_WORDS: usize = 2 * NODE_LIMIT;

pub fn kind_at(nodes: &[u64; NODE_WORDS], n: usize) -> u8
    requires { n < node_limit }
    ensures { result ≡ kind_in nodes.now n }
{
    (nodes[2 * n] / 0x100_0000_0000 % 256) as u8
}

pub fn next_at(nodes: &[u64; NODE_WORDS], n: usize) -> u8
    requires { n < node_limit }
    ensures { result ≡ next_in nodes.now n }
{
    (nodes[2 * n] / 0x1_0000_0000 % 256) as u8
}

pub fn id_at(nodes: &[u64; NODE_WORDS], n: usize) -> u16
    requires { n < node_limit }
    ensures { result ≡ id_in nodes.now n }
{
    (nodes[2 * n] / 0x1_0000 % 65536) as u16
}

pub fn count_at(nodes: &[u64; NODE_WORDS], n: usize) -> u8
    requires { n < node_limit }
    ensures { result ≡ count_in nodes.now n }
{
    (nodes[2 * n] / 256 % 256) as u8
}

pub fn sign_at(nodes: &[u64; NODE_WORDS], n: usize) -> u8
    requires { n < node_limit }
    ensures { result ≡ sign_in nodes.now n }
{
    (nodes[2 * n] % 256) as u8
}

// Child `k`, from 0 to 2.
pub fn child_at(nodes: &[u64; NODE_WORDS], n: usize, k: usize) -> u16
    requires { n < node_limit }
    ensures { result ≡ child_in nodes.now n k }
{
    let word = nodes[2 * n + 1];
    match k {
        0 => (word / 0x1_0000_0000 % 65536) as u16,
        1 => (word / 0x1_0000 % 65536) as u16,
        _ => (word % 65536) as u16,
    }
}

pub fn node_at(nodes: &[u64; NODE_WORDS], literals: &[u64; NODE_LIMIT], n: usize) -> Node
    requires { n < node_limit }
    ensures { result ≡ node_in nodes.now literals.now n }
{
    Node {
        kind: kind_at(nodes, n),
        next: next_at(nodes, n),
        id: id_at(nodes, n),
        count: count_at(nodes, n),
        c0: child_at(nodes, n, 0),
        c1: child_at(nodes, n, 1),
        c2: child_at(nodes, n, 2),
        sign: sign_at(nodes, n),
        magnitude: literals[n],
    }
}

pub fn expression_at(expressions: &[u64; EXPRESSION_LIMIT], n: usize) -> Expression
    requires { n < expression_limit }
    ensures { result ≡ expression_in expressions.now n }
{
    let word = expressions[n];
    Expression {
        root: (word / 256 % 65536) as u16,
        flags: (word % 256) as u8,
    }
}

pub fn request_at(requests: &[u64; REQUEST_LIMIT], n: usize) -> Request
    requires { n < request_limit }
    ensures { result ≡ request_in requests.now n }
{
    let word = requests[n];
    Request {
        expression: (word / 0x1_0000 % 65536) as u16,
        prime: (word / 256 % 256) as u8,
        muladd: (word % 256) as u8,
    }
}

fn head_word(x: Node) -> u64
    ensures { result ≡ head_word x }
{
    (((x.kind as u64 * 256 + x.next as u64) * 65536 + x.id as u64) * 256 + x.count as u64) * 256
        + x.sign as u64
}

fn child_word(x: Node) -> u64
    ensures { result ≡ child_word x }
{
    (x.c0 as u64 * 65536 + x.c1 as u64) * 65536 + x.c2 as u64
}

fn expression_word(x: Expression) -> u64
    ensures { result ≡ expression_word x }
{
    x.root as u64 * 256 + x.flags as u64
}

fn request_word(x: Request) -> u64
    ensures { result ≡ request_word x }
{
    (x.expression as u64 * 256 + x.prime as u64) * 256 + x.muladd as u64
}

pub fn put_node(nodes: &mut [u64; NODE_WORDS], literals: &mut [u64; NODE_LIMIT], n: usize, x: Node)
    requires { n < node_limit }
    ensures { (nodes.new ≡ put_node nodes.old n x) × (literals.new ≡ set literals.old n x.magnitude) }
{
    nodes[2 * n] = head_word(x);
    nodes[2 * n + 1] = child_word(x);
    literals[n] = x.magnitude;
}

pub fn put_expression(expressions: &mut [u64; EXPRESSION_LIMIT], n: usize, x: Expression)
    requires { n < expression_limit }
    ensures { expressions.new ≡ set expressions.old n (expression_word x) }
{
    expressions[n] = expression_word(x);
}

pub fn put_request(requests: &mut [u64; REQUEST_LIMIT], n: usize, x: Request)
    requires { n < request_limit }
    ensures { requests.new ≡ set requests.old n (request_word x) }
{
    requests[n] = request_word(x);
}
