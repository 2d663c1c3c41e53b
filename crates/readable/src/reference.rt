// The name of a reference: its kind, its number where its kind has one, and a prime where it is of the next row. A number is its value.
ghost use Rattle.std.specs.Prelude.{◌≤◌, length};
ghost use Rattle.wording.specs.Pages.{Puts};

use crate::literal::put_literal;
use frames::count::NODE_LIMIT;
use frames::tables::NODE_WORDS;
use kinds::kind::Kind;
use kinds::reference::Reference;
use wording::text::{put_decimal, put_text};

// The kinds that are no cell of a row.
fn put_fixed_kind(page: &mut [u8], used: usize, kind: u8) -> usize
    requires { used ≤ length page.old }
    ensures { Puts used result (length page.new) }
{
    match kind {
        Kind::PUBLIC => put_text(page, used, b"public"),
        Kind::CHALLENGE => put_text(page, used, b"challenge"),
        Kind::EVAL => put_text(page, used, b"eval"),
        Kind::X_DIV_X_SUB_XI => put_text(page, used, b"xDivXSubXi"),
        Kind::X_DIV_X_SUB_WXI => put_text(page, used, b"xDivXSubWXi"),
        _ => put_text(page, used, b"x"),
    }
}

// The kinds that stand in a list before it is fixed, those of a row's cells first.
fn put_kind(page: &mut [u8], used: usize, kind: u8) -> usize
    requires { used ≤ length page.old }
    ensures { Puts used result (length page.new) }
{
    match kind {
        Kind::TMP => put_text(page, used, b"tmp"),
        Kind::CM => put_text(page, used, b"cm"),
        Kind::CONST => put_text(page, used, b"const"),
        Kind::EXP => put_text(page, used, b"exp"),
        Kind::Q => put_text(page, used, b"q"),
        _ => put_fixed_kind(page, used, kind),
    }
}

// There is one of each x kind.
fn put_id(page: &mut [u8], used: usize, r: Reference) -> usize
    requires { used ≤ length page.old }
    ensures { Puts used result (length page.new) }
{
    match r.kind {
        Kind::X_DIV_X_SUB_XI..=Kind::X => used,
        _ => put_decimal(page, used, r.id as u64),
    }
}

pub fn put_reference(
    nodes: &[u64; NODE_WORDS],
    literals: &[u64; NODE_LIMIT],
    page: &mut [u8],
    used: usize,
    r: Reference,
) -> usize
    requires { used ≤ length page.old }
    ensures { Puts used result (length page.new) }
{
    if r.kind == Kind::NUMBER {
        return put_literal(nodes, literals, page, used, r.extra);
    }
    let kind = put_kind(page, used, r.kind);
    let id = put_id(page, kind, r);
    if r.prime == 0 {
        return id;
    }
    put_text(page, id, b"'")
}
