// Text put on a lent page, after what is used of it. Each function that puts something answers how much is used then.
ghost use Rattle.std.specs.Prelude.{◌≤◌, length};
ghost use Rattle.wording.specs.Pages.{Puts};

use itoa::Buffer;

// What does not fit is left out.
pub fn put_text(page: &mut [u8], used: usize, text: &[u8]) -> usize
    requires { used ≤ length page.old }
    ensures { Puts used result (length page.new) }
{
    if page.len() - used < text.len() {
        return used;
    }
    page[used..used + text.len()].copy_from_slice(text);
    used + text.len()
}

pub fn put_decimal(page: &mut [u8], used: usize, x: u64) -> usize
    requires { used ≤ length page.old }
    ensures { Puts used result (length page.new) }
{
    let mut digits = Buffer::new();
    put_text(page, used, digits.format(x).as_bytes())
}

// So many of a thing: its name for one, or for none and several.
pub fn put_counted(page: &mut [u8], used: usize, n: usize, one: &[u8], several: &[u8]) -> usize
    requires { used ≤ length page.old }
    ensures { Puts used result (length page.new) }
{
    let counted = put_decimal(page, used, n as u64);
    if n == 1 {
        return put_text(page, counted, one);
    }
    put_text(page, counted, several)
}
