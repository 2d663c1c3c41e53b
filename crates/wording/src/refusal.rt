// A refusal as a sentence: its number, what it means by document 01's table, and the node to blame where there is one.
ghost use Rattle.std.specs.Prelude.{◌≤◌, length};
ghost use Rattle.wording.specs.Pages.{Puts};

use crate::text::{put_decimal, put_text};
use kinds::refusal::Refusal;

// Of a whole run's refusals; the last is that something is too large. A number and not a Refusal: what prints it vouches for nothing.
fn put_meaning(page: &mut [u8], used: usize, number: u8) -> usize
    requires { used ≤ length page.old }
    ensures { Puts used result (length page.new) }
{
    if number == u8::from(Refusal::Malformed) {
        return put_text(
            page,
            used,
            b"malformed line or frame: text that is no frame, an unknown kind, frames out of order, a prime, muladd or next byte that is not 0 or 1, expression flags above 7, an unused id that is not 0, minus zero, or a literal out of range",
        );
    }
    if number == u8::from(Refusal::ChildCount) {
        return put_text(
            page,
            used,
            b"a child count differs from that of the node's kind",
        );
    }
    if number == u8::from(Refusal::NotThere) {
        return put_text(
            page,
            used,
            b"a child is not earlier than its parent, a node is used twice, or a root or an expression number is not there",
        );
    }
    if number == u8::from(Refusal::Cycle) {
        return put_text(page, used, b"exp leaves form a cycle");
    }
    if number == u8::from(Refusal::DoublePrime) {
        return put_text(
            page,
            used,
            b"a primed evaluation reaches a cm, const, exp or q leaf with next",
        );
    }
    put_text(
        page,
        used,
        b"there are more than 4,096 nodes, 512 expressions or 1,024 requests, or the list does not fit",
    )
}

fn put_blame(page: &mut [u8], used: usize, blame: Option<usize>) -> usize
    requires { used ≤ length page.old }
    ensures { Puts used result (length page.new) }
{
    match blame {
        None => used,
        Some(n) => {
            let open = put_text(page, used, b" (node ");
            let node = put_decimal(page, open, n as u64);
            put_text(page, node, b")")
        }
    }
}

pub fn put_refusal(page: &mut [u8], used: usize, number: u8, blame: Option<usize>) -> usize
    requires { used ≤ length page.old }
    ensures { Puts used result (length page.new) }
{
    let open = put_text(page, used, b"Refused (");
    let numbered = put_decimal(page, open, number as u64);
    let close = put_text(page, numbered, b"): ");
    let meant = put_meaning(page, close, number);
    let blamed = put_blame(page, meant, blame);
    put_text(page, blamed, b".\n")
}
