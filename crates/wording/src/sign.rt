// The sign between two operands. Operations of a pool and steps that do the same have the same byte.
ghost use Rattle.std.specs.Prelude.{◌≤◌, length};
ghost use Rattle.wording.specs.Pages.{Puts};

use crate::text::put_text;
use kinds::kind::Kind;

// Of a muladd it is the one between its factors.
pub fn put_sign(page: &mut [u8], used: usize, kind: u8) -> usize
    requires { used ≤ length page.old }
    ensures { Puts used result (length page.new) }
{
    match kind {
        Kind::ADD => put_text(page, used, b" + "),
        Kind::ADDC => put_text(page, used, b" + "),
        Kind::SUB => put_text(page, used, b" - "),
        _ => put_text(page, used, b" * "),
    }
}
