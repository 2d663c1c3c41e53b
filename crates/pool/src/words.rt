// What stands in the tables, as indices.
ghost use Rattle.std.specs.Prelude.{◌≡◌, ◌<◌};
ghost use Rattle.frames.specs.Order.{node_limit, expression_limit};
ghost use Rattle.frames.specs.Tables.{child_in, id_in};
ghost use Rattle.pool.specs.Words.{root_in};

use frames::count::EXPRESSION_LIMIT;
use frames::tables::{NODE_WORDS, child_at, expression_at, id_at};

pub fn child(nodes: &[u64; NODE_WORDS], n: usize, k: usize) -> usize
    requires { n < node_limit }
    ensures { result ≡ child_in nodes.now n k }
{
    child_at(nodes, n, k) as usize
}

pub fn id(nodes: &[u64; NODE_WORDS], n: usize) -> usize
    requires { n < node_limit }
    ensures { result ≡ id_in nodes.now n }
{
    id_at(nodes, n) as usize
}

pub fn root(expressions: &[u64; EXPRESSION_LIMIT], e: usize) -> usize
    requires { e < expression_limit }
    ensures { result ≡ root_in expressions.now e }
{
    expression_at(expressions, e).root as usize
}
