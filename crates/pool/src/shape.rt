// The shape of a pool: child counts, children earlier than their parents, one use at most, roots and expressions that are there.
ghost use Rattle.std.specs.Prelude.{◌≡◌, ◌<◌, ◌≤◌};
ghost use Rattle.frames.specs.Order.{node_limit, expression_limit};
ghost use Rattle.pool.specs.Admission.{first};
ghost use Rattle.pool.specs.Shapes.{EarlierGiven, wrong_in, late_in, twice_in, lost_in, lost_root_in, found_at};

use crate::words::{child, id, root};
use frames::count::{EXPRESSION_LIMIT, NODE_LIMIT};
use frames::tables::{NODE_WORDS, count_at, kind_at};
use kinds::kind::Kind;

// Are all three places of children earlier, also those that do not count?
fn all_earlier(nodes: &[u64; NODE_WORDS], i: usize) -> bool
    requires { i < node_limit }
    ensures { EarlierGiven nodes.now i result }
{
    child(nodes, i, 0) < i && child(nodes, i, 1) < i && child(nodes, i, 2) < i
}

// Of most nodes all places are earlier, which is told without the count.
fn late_child(nodes: &[u64; NODE_WORDS], i: usize) -> bool
    requires { i < node_limit }
    ensures { result ≡ late_in nodes.now i }
{
    if all_earlier(nodes, i) {
        return false;
    }
    let count = count_at(nodes, i);
    if count == 0 {
        return false;
    }
    if i <= child(nodes, i, 0) {
        return true;
    }
    if count == 1 {
        return false;
    }
    if i <= child(nodes, i, 1) {
        return true;
    }
    if count == 2 {
        return false;
    }
    i <= child(nodes, i, 2)
}

// Few ids are so large, so the kind is looked at last.
fn lost_leaf(nodes: &[u64; NODE_WORDS], expressions: usize, i: usize) -> bool
    requires { i < node_limit }
    ensures { result ≡ lost_in nodes.now expressions i }
{
    expressions <= id(nodes, i) && kind_at(nodes, i) == Kind::EXP
}

// The smallest of the first n nodes whose child count is not that of its kind.
pub fn first_wrong_count(nodes: &[u64; NODE_WORDS], n: usize) -> Option<usize>
    requires { n ≤ node_limit }
    ensures { found_at result ≡ first (wrong_in nodes.now) n }
{
    (0..n).find(|&i| count_at(nodes, i) != Kind::child_count(kind_at(nodes, i)))
}

// The smallest with a child that is not earlier.
pub fn first_late_child(nodes: &[u64; NODE_WORDS], n: usize) -> Option<usize>
    requires { n ≤ node_limit }
    ensures { found_at result ≡ first (late_in nodes.now) n }
{
    (0..n).find(|&i| late_child(nodes, i))
}

// The smallest that is used twice.
pub fn first_used_twice(uses: &[u8; NODE_LIMIT], n: usize) -> Option<usize>
    requires { n ≤ node_limit }
    ensures { found_at result ≡ first (twice_in uses.now) n }
{
    uses[..n].iter().position(|times| 2 <= *times)
}

// The smallest exp leaf whose expression is not there.
pub fn first_lost_leaf(nodes: &[u64; NODE_WORDS], n: usize, expressions: usize) -> Option<usize>
    requires { n ≤ node_limit }
    ensures { found_at result ≡ first (lost_in nodes.now expressions) n }
{
    (0..n).find(|&i| lost_leaf(nodes, expressions, i))
}

// The first expression whose root is not there.
pub fn first_lost_root(expressions: &[u64; EXPRESSION_LIMIT], n: usize, m: usize) -> Option<usize>
    requires { m ≤ expression_limit }
    ensures { found_at result ≡ first (lost_root_in expressions.now n) m }
{
    (0..m).find(|&e| n <= root(expressions, e))
}
