// One frame, put behind its length (2 bytes, the high one first) into a lent slice. Each function answers where what it put ends.
ghost use Rattle.std.specs.Prelude.{◌≡◌, ◌+◌, ◌≤◌, length};
ghost use Rattle.kinds.specs.Write.{write};
ghost use Rattle.frames.specs.Written.{u64_bytes, node_bytes, expression_bytes};
ghost use Rattle.pool_frames.specs.Frames.{framed, head_bytes, children_size, children_of, literal_of, Puts};

use frames::frame::{EXPRESSION_TYPE, NODE_TYPE};
use frames::node::Node;
use frames::rest::Expression;
use kinds::big_endian::{put_two, put_u16};
use kinds::kind::Kind;

// Type, kind, next, id and child count.
const HEAD_SIZE: usize = 6;

// The length and those.
const FRAMED_HEAD_SIZE: usize = 2 + HEAD_SIZE;

const CHILD_SIZE: usize = 2;

// A sign and a magnitude.
const LITERAL_SIZE: usize = 9;

const EXPRESSION_SIZE: u16 = 4;

// The children that a table keeps of a node.
fn children_size(count: u8) -> usize
    ensures { result ≡ children_size count }
{
    CHILD_SIZE * (count as usize).min(3)
}

// The length of a node's frame.
pub fn node_size(x: Node) -> usize
    ensures { result ≡ length (node_bytes x) }
{
    let head = HEAD_SIZE + children_size(x.count);
    if Kind::carries_literal(x.kind) {
        head + LITERAL_SIZE
    } else {
        head
    }
}

fn put_u64(out: &mut [u8], at: usize, x: u64)
    requires { at + 8 ≤ length out.old }
    ensures { out.new ≡ write out.old at (u64_bytes x) }
{
    put_u16(out, at, (x / 0x1_0000_0000_0000) as u16);
    put_u16(out, at + 2, (x / 0x1_0000_0000 % 65536) as u16);
    put_u16(out, at + 4, (x / 0x1_0000 % 65536) as u16);
    put_u16(out, at + 6, (x % 65536) as u16);
}

fn put_head(out: &mut [u8], at: usize, size: u16, x: Node)
    requires { at + 8 ≤ length out.old }
    ensures { out.new ≡ write out.old at (head_bytes size x) }
{
    put_u16(out, at, size);
    put_two(out, at + 2, NODE_TYPE, x.kind);
    put_two(out, at + 4, x.next, (x.id / 256) as u8);
    put_two(out, at + 6, (x.id % 256) as u8, x.count);
}

fn put_children(out: &mut [u8], at: usize, x: Node) -> usize
    requires { at + length (children_of x) ≤ length out.old }
    ensures { Puts out.old at (children_of x) out.new result }
{
    if x.count < 1 {
        return at;
    }
    put_u16(out, at, x.c0);
    if x.count < 2 {
        return at + CHILD_SIZE;
    }
    put_u16(out, at + CHILD_SIZE, x.c1);
    if x.count < 3 {
        return at + 2 * CHILD_SIZE;
    }
    put_u16(out, at + 2 * CHILD_SIZE, x.c2);
    at + 3 * CHILD_SIZE
}

fn put_literal(out: &mut [u8], at: usize, x: Node) -> usize
    requires { at + length (literal_of x) ≤ length out.old }
    ensures { Puts out.old at (literal_of x) out.new result }
{
    if Kind::carries_literal(x.kind) {
        out[at] = x.sign;
        put_u64(out, at + 1, x.magnitude);
        return at + LITERAL_SIZE;
    }
    at
}

pub fn put_node(out: &mut [u8], at: usize, x: Node) -> usize
    requires { at + length (framed (node_bytes x)) ≤ length out.old }
    ensures { Puts out.old at (framed (node_bytes x)) out.new result }
{
    put_head(out, at, node_size(x) as u16, x);
    let end = put_children(out, at + FRAMED_HEAD_SIZE, x);
    put_literal(out, end, x)
}

pub fn put_expression(out: &mut [u8], at: usize, x: Expression) -> usize
    requires { at + 6 ≤ length out.old }
    ensures { Puts out.old at (framed (expression_bytes x)) out.new result }
{
    put_u16(out, at, EXPRESSION_SIZE);
    put_two(out, at + 2, EXPRESSION_TYPE, (x.root / 256) as u8);
    put_two(out, at + 4, (x.root % 256) as u8, x.flags);
    at + 6
}
