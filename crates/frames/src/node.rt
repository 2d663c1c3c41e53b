// A node, and its frame: 01, kind, next, id (2 bytes), child count, children (2 bytes each), and for some kinds a sign and 8 bytes.
ghost use Rattle.std.specs.Prelude.{◌≡◌, ◌+◌, ◌*◌, ◌<◌, ◌≤◌, length};
ghost use Rattle.frames.specs.Nodes.{u64_at, head_ok, node_size, literal_ok, child_of, sign_of, magnitude_of, node_of, node_answer};

use kinds::big_endian::u16_at;
use kinds::kind::Kind;
use kinds::literal::Literal;

// The bytes before the children.
const HEAD_SIZE: usize = 6;

// Those and the sign, which stands after the children.
const SIGNED_HEAD_SIZE: usize = 7;

const CHILD_SIZE: usize = 2;

// A sign and a magnitude.
const LITERAL_SIZE: usize = 9;

// `count` is the frame's own child count. Only the first three children are kept; one that is not there is 0, and so is a literal.
#[derive(Clone, Copy)]
pub struct Node {
    pub kind: u8,
    pub next: u8,
    pub id: u16,
    pub count: u8,
    pub c0: u16,
    pub c1: u16,
    pub c2: u16,
    pub sign: u8,
    pub magnitude: u64,
}

fn u64_at(f: &[u8], at: usize) -> u64
    requires { at + 8 ≤ length f.now }
    ensures { result ≡ u64_at f.now at }
{
    let a = u64::from(u16_at(f, at));
    let b = u64::from(u16_at(f, at + 2));
    let c = u64::from(u16_at(f, at + 4));
    let d = u64::from(u16_at(f, at + 6));
    ((a * 65536 + b) * 65536 + c) * 65536 + d
}

fn head_ok(kind: u8, next: u8, id: u16) -> bool
    ensures { result ≡ head_ok kind next id }
{
    Kind::is_node_kind(kind) && next <= 1 && (Kind::carries_id(kind) || id == 0)
}

// The length of a node frame.
fn node_size(kind: u8, count: u8) -> usize
    ensures { result ≡ node_size kind count }
{
    let head = HEAD_SIZE + CHILD_SIZE * (count as usize);
    if Kind::carries_literal(kind) {
        head + LITERAL_SIZE
    } else {
        head
    }
}

fn literal_ok(kind: u8, sign: u8, magnitude: u64) -> bool
    ensures { result ≡ literal_ok kind sign magnitude }
{
    let l = Literal {
        negative: sign == 1,
        magnitude,
    };
    sign <= 1 && l.is_allowed(kind)
}

fn child_of(f: &[u8], count: u8, k: usize) -> u16
    requires { (6 + 2 * count ≤ length f.now) × (k < 3) }
    ensures { result ≡ child_of f.now count k }
{
    if k < count as usize {
        u16_at(f, HEAD_SIZE + CHILD_SIZE * k)
    } else {
        0
    }
}

fn sign_of(f: &[u8], kind: u8, count: u8) -> u8
    requires { length f.now ≡ node_size kind count }
    ensures { result ≡ sign_of f.now kind count }
{
    let at = HEAD_SIZE + CHILD_SIZE * (count as usize);
    if Kind::carries_literal(kind) {
        f[at]
    } else {
        0
    }
}

fn magnitude_of(f: &[u8], kind: u8, count: u8) -> u64
    requires { length f.now ≡ node_size kind count }
    ensures { result ≡ magnitude_of f.now kind count }
{
    let at = SIGNED_HEAD_SIZE + CHILD_SIZE * (count as usize);
    if Kind::carries_literal(kind) {
        u64_at(f, at)
    } else {
        0
    }
}

// None of a frame that is malformed.
pub fn node_frame(f: &[u8]) -> Option<Node>
    ensures { node_answer result ≡ node_of f.now }
{
    if f.len() < HEAD_SIZE {
        return None;
    }
    let kind = f[1];
    let next = f[2];
    let id = u16_at(f, 3);
    let count = f[5];
    if !head_ok(kind, next, id) {
        return None;
    }
    if f.len() != node_size(kind, count) {
        return None;
    }
    let sign = sign_of(f, kind, count);
    let magnitude = magnitude_of(f, kind, count);
    if !literal_ok(kind, sign, magnitude) {
        return None;
    }
    Some(Node {
        kind,
        next,
        id,
        count,
        c0: child_of(f, count, 0),
        c1: child_of(f, count, 1),
        c2: child_of(f, count, 2),
        sign,
        magnitude,
    })
}
