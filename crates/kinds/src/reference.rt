// A reference, and its record in a list of bytes.
ghost use Rattle.std.specs.Prelude.{◌≡◌, ◌+◌, ◌≤◌, length};
ghost use Rattle.kinds.specs.Write.{write};
ghost use Rattle.kinds.specs.References.{reference_size, ref_at, ref_bytes, blank_ref, plain_ref, number_ref};

use crate::big_endian::{put_two, put_u16, u16_at};
use crate::kind::Kind;

// `extra` is the expression of a temporary that fixing made, and for a number the node that brought its literal.
#[derive(Clone, Copy)]
pub struct Reference {
    pub kind: u8,
    pub prime: u8,
    pub id: u16,
    pub dim: u16,
    pub p: u16,
    pub tree_pos: u16,
    pub extra: u16,
}

pub const REFERENCE_SIZE: usize = 12;

impl Reference {
    // A source that a step does not use.
    pub fn blank() -> Reference
        ensures { result ≡ blank_ref }
    {
        Reference::plain(0, 0, 0)
    }

    // To the literal that a node brought.
    pub fn number(node: u16) -> Reference
        ensures { result ≡ number_ref node }
    {
        Reference {
            kind: Kind::NUMBER,
            prime: 0,
            id: 0,
            dim: 0,
            p: 0,
            tree_pos: 0,
            extra: node,
        }
    }

    // As emission makes one of any other kind.
    pub fn plain(kind: u8, prime: u8, id: u16) -> Reference
        ensures { result ≡ plain_ref kind prime id }
    {
        Reference {
            kind: kind,
            prime: prime,
            id: id,
            dim: 0,
            p: 0,
            tree_pos: 0,
            extra: 0,
        }
    }
}

pub fn reference_at(list: &[u8], at: usize) -> Reference
    requires { at + reference_size ≤ length list.now }
    ensures { result ≡ ref_at list.now at }
{
    Reference {
        kind: list[at],
        prime: list[at + 1],
        id: u16_at(list, at + 2),
        dim: u16_at(list, at + 4),
        p: u16_at(list, at + 6),
        tree_pos: u16_at(list, at + 8),
        extra: u16_at(list, at + 10),
    }
}

pub fn put_reference(list: &mut [u8], at: usize, r: Reference)
    requires { at + reference_size ≤ length list.old }
    ensures { list.new ≡ write list.old at (ref_bytes r) }
{
    put_two(list, at, r.kind, r.prime);
    put_u16(list, at + 2, r.id);
    put_u16(list, at + 4, r.dim);
    put_u16(list, at + 6, r.p);
    put_u16(list, at + 8, r.tree_pos);
    put_u16(list, at + 10, r.extra);
}
