// A literal in decimal, with its sign.
ghost use Rattle.std.specs.Prelude.{◌≤◌, length};
ghost use Rattle.wording.specs.Pages.{Puts};

use frames::count::NODE_LIMIT;
use frames::tables::NODE_WORDS;
use output::line::literal_of;
use wording::text::{put_decimal, put_text};

// The literal that a node brings. Its minus has no space behind it, and so is no subtraction's.
pub fn put_literal(
    nodes: &[u64; NODE_WORDS],
    literals: &[u64; NODE_LIMIT],
    page: &mut [u8],
    used: usize,
    n: u16,
) -> usize
    requires { used ≤ length page.old }
    ensures { Puts used result (length page.new) }
{
    let l = literal_of(nodes, literals, n as usize);
    if l.negative {
        let minus = put_text(page, used, b"-");
        return put_decimal(page, minus, l.magnitude);
    }
    put_decimal(page, used, l.magnitude)
}
