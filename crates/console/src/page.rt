// A page that is filled with text before it is written to standard output.
ghost use Rattle.std.specs.Prelude.{◌+◌, ◌≤◌, length, ◌≡◌};

pub const PAGE_SIZE: usize = 65536;

// Puts the first n bytes of a text after the first `used` of a page, and answers how many are used then. A page without room for them is written
// first; what fits no page is left out.
pub fn put(rt: &impl Print, page: &mut [u8], used: usize, text: &[u8], n: usize) -> usize
    requires { (65536 ≡ length page.old) × (n ≤ length text.now) × (used ≤ 65536) }
    ensures { result ≤ 65536 }
{
    if PAGE_SIZE < n {
        return used;
    }
    let from = make_room(rt, page, used, n);
    page[from..from + n].copy_from_slice(&text[..n]);
    from + n
}

// Writes the page where n more bytes do not fit.
fn make_room(rt: &impl Print, page: &[u8], used: usize, n: usize) -> usize
    requires { (65536 ≡ length page.now) × (n ≤ 65536) × (used ≤ 65536) }
    ensures { result + n ≤ 65536 }
{
    if PAGE_SIZE - n < used {
        flush(rt, page, used);
        return 0;
    }
    used
}

// Writes the first `used` bytes of a page. Where writing fails, the rest is lost and the program goes on.
pub fn flush(rt: &impl Print, page: &[u8], used: usize)
    requires { used ≤ length page.now }
{
    let _ = rt.write_all(&page[..used]);
}
