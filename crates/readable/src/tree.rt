// An expression as the circuit wrote it: not fused, and in brackets only what would be read as another tree without them. A muladd, addc or mulc node is
// written as the sum or product that it is.
ghost use Rattle.std.specs.Prelude.{◌≡◌, ◌≤◌, length};
ghost use Rattle.wording.specs.Pages.{Puts};
ghost use Rattle.readable.specs.Binding.{binding, in_brackets, first_place, second_place};
ghost use Rattle.readable.specs.Trees.{LeafAsked, TreeAsked};

use crate::literal::put_literal;
use crate::reference::put_reference;
use frames::count::NODE_LIMIT;
use frames::tables::NODE_WORDS;
use kinds::kind::Kind;
use starkinfo_codegen::source::leaf_reference;
use starkinfo_codegen::words::{first_child, kind_of, second_child, third_child};
use wording::sign::put_sign;
use wording::text::put_text;

// How tightly the parts of an operation bind, the least first; a leaf and what is in brackets are whole.
pub const SUM: u8 = 0;

const PRODUCT: u8 = 1;

const WHOLE: u8 = 2;

// A leaf's prime is its own next.
const THIS_ROW: u8 = 0;

fn binding_of(kind: u8) -> u8
    ensures { result ≡ binding kind }
{
    match kind {
        Kind::MUL => PRODUCT,
        Kind::MULC => PRODUCT,
        Kind::ADD..=Kind::ADDC => SUM,
        _ => WHOLE,
    }
}

// The least binding that an operand may have without brackets: signs of one binding are read from left to right.
fn first_place(kind: u8) -> u8
    ensures { result ≡ first_place kind }
{
    match kind {
        Kind::NEG => SUM,
        Kind::MULADD => PRODUCT,
        _ => binding_of(kind),
    }
}

fn second_place(kind: u8) -> u8
    ensures { result ≡ second_place kind }
{
    match kind {
        Kind::MUL..=Kind::MULADD => WHOLE,
        _ => PRODUCT,
    }
}

// Is what is written at a node of this kind in brackets there?
fn in_brackets(kind: u8, place: u8) -> bool
    ensures { result ≡ in_brackets kind place }
{
    if kind == Kind::NEG {
        return true;
    }
    binding_of(kind) < place
}

fn put_open(page: &mut [u8], used: usize, kind: u8, place: u8) -> usize
    requires { used ≤ length page.old }
    ensures { Puts used result (length page.new) }
{
    if kind == Kind::NEG {
        return put_text(page, used, b"-(");
    }
    if in_brackets(kind, place) {
        return put_text(page, used, b"(");
    }
    used
}

fn put_close(page: &mut [u8], used: usize, kind: u8, place: u8) -> usize
    requires { used ≤ length page.old }
    ensures { Puts used result (length page.new) }
{
    if in_brackets(kind, place) {
        return put_text(page, used, b")");
    }
    used
}

// What stands behind the only operand of a node: the literal of an addc or mulc.
fn put_own(
    nodes: &[u64; NODE_WORDS],
    literals: &[u64; NODE_LIMIT],
    page: &mut [u8],
    used: usize,
    kind: u8,
    i: u16,
) -> usize
    requires { used ≤ length page.old }
    ensures { Puts used result (length page.new) }
{
    if kind == Kind::NEG {
        return used;
    }
    let sign = put_sign(page, used, kind);
    put_literal(nodes, literals, page, sign, i)
}

fn put_leaf(
    nodes: &[u64; NODE_WORDS],
    literals: &[u64; NODE_LIMIT],
    page: &mut [u8],
    used: usize,
    i: u16,
) -> usize
    requires { LeafAsked (length page.old) used i }
    ensures { Puts used result (length page.new) }
{
    let leaf = leaf_reference(nodes, THIS_ROW, i);
    put_reference(nodes, literals, page, used, leaf)
}

// The tree at a node, in brackets where it binds less than its place asks. A child is earlier than its parent (admission, 3), whose number is `below`:
// of any other nothing is shown.
pub fn put_tree(
    nodes: &[u64; NODE_WORDS],
    literals: &[u64; NODE_LIMIT],
    page: &mut [u8],
    used: usize,
    below: u16,
    i: u16,
    place: u8,
) -> usize
    requires { TreeAsked (length page.old) used below }
    ensures { Puts used result (length page.new) }
{
    if below <= i {
        return used;
    }
    let kind = kind_of(nodes, i);
    if Kind::is_leaf(kind) {
        return put_leaf(nodes, literals, page, used, i);
    }
    let open = put_open(page, used, kind, place);
    let a = first_child(nodes, i);
    let first = put_tree(nodes, literals, page, open, i, a, first_place(kind));
    if Kind::child_count(kind) == 1 {
        let own = put_own(nodes, literals, page, first, kind, i);
        return put_close(page, own, kind, place);
    }
    let sign = put_sign(page, first, kind);
    let b = second_child(nodes, i);
    let second = put_tree(nodes, literals, page, sign, i, b, second_place(kind));
    if kind != Kind::MULADD {
        return put_close(page, second, kind, place);
    }
    let plus = put_sign(page, second, Kind::ADD);
    let c = third_child(nodes, i);
    let third = put_tree(nodes, literals, page, plus, i, c, PRODUCT);
    put_close(page, third, kind, place)
}
