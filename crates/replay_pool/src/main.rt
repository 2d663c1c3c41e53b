// Reads pools, as frames or as texts, and prints the number that each gets: 0 where it is admitted, else the refusal's.
#![tactic(auto)]

ghost use Rattle.std.specs.Prelude.{◌≤◌, true, ◌≡◌, length, take};
ghost use Rattle.replay_pool.specs.Numbers.{NumberedAs};

use kinds::big_endian::u16_of;
use std::io::Read;

// More than stdin has; a program ends.
const ENTRIES: u32 = 4096;

// The form of an entry that is a text of hexadecimal lines; any other is of frames, each behind its length.
const TEXT: u8 = 1;

// More than a name has.
const NAME_ROOM: usize = 4096;

// More than a pool has.
const POOL_ROOM: usize = 65536;

// Reads the first n bytes of a buffer; false where it is too short or the input ends.
fn filled(from: &mut impl Read, buffer: &mut [u8], n: usize) -> bool
    ensures { result ≡ true → n ≤ length buffer.new }
{
    if buffer.len() < n {
        return false;
    }
    from.read_exact(&mut buffer[..n]).is_ok()
}

fn print(rt: &impl Print, buffer: &[u8], n: usize)
    requires { n ≤ length buffer.now }
{
    let _ = rt.write_all(&buffer[..n]);
}

// The number that the first n bytes get, of this form.
fn number(form: u8, input: &[u8], n: usize) -> u64
    requires { n ≤ length input.now }
    ensures { NumberedAs form (take n input.now) result }
{
    if form == TEXT {
        u64::from(pool::number::number_of_text(&input[..n]))
    } else {
        u64::from(pool::number::number_of(&input[..n]))
    }
}

// The form, the length of the name, that of the pool, the name, the pool.
fn entry(
    rt: &impl Print,
    from: &mut impl Read,
    head: &mut [u8; 4],
    name: &mut [u8],
    input: &mut [u8],
) -> bool {
    if !filled(from, head, 4) {
        return false;
    }
    let form = head[0];
    let n = usize::from(head[1]);
    let m = u16_of(head[2], head[3]) as usize;
    if !filled(from, name, n) {
        return false;
    }
    if !filled(from, input, m) {
        return false;
    }
    print(rt, name, n);
    let _ = println!(rt; " {}", number(form, input, m));
    true
}

fn main(rt: HostRuntime) {
    let mut from = rt.stdin();
    let mut head = [0u8; 4];
    let mut name = [0u8; NAME_ROOM];
    let mut input = [0u8; POOL_ROOM];
    for turn in 0..ENTRIES {
        if !entry(&rt, &mut from, &mut head, &mut name, &mut input) {
            return;
        }
    }
}
