// A line of lower-case hexadecimal, as the bytes of a frame.
ghost use Rattle.std.specs.Prelude.{◌≡◌, true, ◌+◌, ◌*◌, length};
ghost use Rattle.kinds.specs.Write.{write};
ghost use Rattle.frames.specs.Lines.{is_digit, digit_of, all_digits, line_ok, bytes_of, longest_frame, Unhexes};

// 15 bytes, and the children of a node frame with 255 of them.
pub const LONGEST_FRAME: usize = 525;

fn is_digit(b: u8) -> bool
    ensures { result ≡ is_digit b }
{
    matches!(b, b'0'..=b'9' | b'a'..=b'f')
}

fn digit(b: u8) -> u8
    requires { is_digit b ≡ true }
    ensures { result ≡ digit_of b }
{
    if b <= b'9' { b - b'0' } else { b - b'a' + 10 }
}

fn pair(a: u8, b: u8) -> u8
    requires { (is_digit a ≡ true) × (is_digit b ≡ true) }
    ensures { result ≡ digit_of a * 16 + digit_of b }
{
    digit(a) * 16 + digit(b)
}

fn all_digits(line: &[u8]) -> bool
    ensures { result ≡ all_digits line.now }
{
    line.iter().all(|&b| is_digit(b))
}

fn is_line(line: &[u8]) -> bool
    ensures { result ≡ line_ok line.now }
{
    line.len() != 0 && line.len() <= 2 * LONGEST_FRAME && line.len() % 2 == 0 && all_digits(line)
}

fn decode(line: &[u8], out: &mut [u8; LONGEST_FRAME])
    requires { line_ok line.now ≡ true }
    ensures { out.new ≡ write out.old 0 (bytes_of line.now) }
{
    let n = line.len() / 2;
    for i in 0..n {
        out[i] = pair(line[2 * i], line[2 * i + 1]);
    }
}

// The bytes of a line, at the front of `out`, and how many. None where it is malformed, and `out` has not changed.
pub fn unhex(line: &[u8], out: &mut [u8; LONGEST_FRAME]) -> Option<usize>
    requires { length out.old ≡ longest_frame }
    ensures { Unhexes line.now result out.old out.new }
{
    if !is_line(line) {
        return None;
    }
    decode(line, out);
    Some(line.len() / 2)
}
