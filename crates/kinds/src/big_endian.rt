// A number of two bytes in a list, the high byte first.
ghost use Rattle.std.specs.Prelude.{◌≡◌, [], ◌∷◌, ◌+◌, ◌*◌, ◌≤◌, length};
ghost use Rattle.kinds.specs.Write.{write};
ghost use Rattle.kinds.specs.BigEndian.{u16_at, u16_bytes};

pub fn u16_of(high: u8, low: u8) -> u16
    ensures { result ≡ high * 256 + low }
{
    (high as u16) * 256 + (low as u16)
}

pub fn u16_at(list: &[u8], at: usize) -> u16
    requires { at + 2 ≤ length list.now }
    ensures { result ≡ u16_at list.now at }
{
    u16_of(list[at], list[at + 1])
}

pub fn put_two(list: &mut [u8], at: usize, a: u8, b: u8)
    requires { at + 2 ≤ length list.old }
    ensures { list.new ≡ write list.old at (a ∷ b ∷ []) }
{
    list[at] = a;
    list[at + 1] = b;
}

pub fn put_u16(list: &mut [u8], at: usize, x: u16)
    requires { at + 2 ≤ length list.old }
    ensures { list.new ≡ write list.old at (u16_bytes x) }
{
    put_two(list, at, (x / 256) as u8, (x % 256) as u8)
}
