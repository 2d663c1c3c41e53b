// A pool's nodes in their table of words, by the numbers that operands are.
ghost use Rattle.std.specs.Prelude.{◌≡◌, ◌<◌};
ghost use Rattle.starkinfo_codegen.specs.Words.{node_of_words};

use frames::tables::{NODE_WORDS, child_at, count_at, id_at, kind_at, next_at};

// A node's number is below this.
pub const NODE_LIMIT: u16 = 4096;

pub fn kind_of(nodes: &[u64; NODE_WORDS], n: u16) -> u8
    requires { n < 4096 }
    ensures { result ≡ (node_of_words nodes.now n).kind }
{
    kind_at(nodes, n as usize)
}

pub fn next_of(nodes: &[u64; NODE_WORDS], n: u16) -> u8
    requires { n < 4096 }
    ensures { result ≡ (node_of_words nodes.now n).next }
{
    next_at(nodes, n as usize)
}

pub fn id_of(nodes: &[u64; NODE_WORDS], n: u16) -> u16
    requires { n < 4096 }
    ensures { result ≡ (node_of_words nodes.now n).id }
{
    id_at(nodes, n as usize)
}

pub fn count_of(nodes: &[u64; NODE_WORDS], n: u16) -> u8
    requires { n < 4096 }
    ensures { result ≡ (node_of_words nodes.now n).count }
{
    count_at(nodes, n as usize)
}

pub fn first_child(nodes: &[u64; NODE_WORDS], n: u16) -> u16
    requires { n < 4096 }
    ensures { result ≡ (node_of_words nodes.now n).c0 }
{
    child_at(nodes, n as usize, 0)
}

pub fn second_child(nodes: &[u64; NODE_WORDS], n: u16) -> u16
    requires { n < 4096 }
    ensures { result ≡ (node_of_words nodes.now n).c1 }
{
    child_at(nodes, n as usize, 1)
}

pub fn third_child(nodes: &[u64; NODE_WORDS], n: u16) -> u16
    requires { n < 4096 }
    ensures { result ≡ (node_of_words nodes.now n).c2 }
{
    child_at(nodes, n as usize, 2)
}
