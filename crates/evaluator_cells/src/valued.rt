// The answer's bytes: 12 for each cell, its kind, prime, id (2) and value (8), the high byte first.
ghost use Rattle.std.specs.Prelude.{◌≡◌, ◌+◌, ◌*◌, ◌≤◌, length};
ghost use Rattle.kinds.specs.Write.{write};
ghost use Rattle.output.specs.Output.{u32_bytes, u64_bytes};
ghost use Rattle.evaluator_cells.specs.Keyed.{keyed_bytes, keyed_to, KeyedAsks, KeyedAllAsk};

use crate::cells::{Cells, ID_KEYS, PRIMES};
use kinds::big_endian::{put_two, put_u16};

pub const VALUED_SIZE: usize = 12;

// The places of a cell's parts after its kind and prime.
const ID: usize = 2;

const VALUE: usize = 4;

fn put_u32(out: &mut [u8], at: usize, x: u32)
    requires { at + 4 ≤ length out.old }
    ensures { out.new ≡ write out.old at (u32_bytes x) }
{
    put_u16(out, at, (x / 0x1_0000) as u16);
    put_u16(out, at + 2, (x % 0x1_0000) as u16);
}

fn put_u64(out: &mut [u8], at: usize, x: u64)
    requires { at + 8 ≤ length out.old }
    ensures { out.new ≡ write out.old at (u64_bytes x) }
{
    put_u32(out, at, (x / 0x1_0000_0000) as u32);
    put_u32(out, at + 4, (x % 0x1_0000_0000) as u32);
}

fn put_keyed(out: &mut [u8], at: usize, key: u32, value: u64)
    requires { KeyedAsks (length out.old) at key }
    ensures { out.new ≡ write out.old at (keyed_bytes key value) }
{
    put_two(
        out,
        at,
        (key / ID_KEYS / PRIMES) as u8,
        (key / ID_KEYS % PRIMES) as u8,
    );
    put_u16(out, at + ID, (key % ID_KEYS) as u16);
    put_u64(out, at + VALUE, value);
}

// The cells, at the front.
pub fn put_all(cells: &Cells, out: &mut [u8])
    requires { KeyedAllAsk cells.now.keys cells.now.count (length out.old) }
    ensures { out.new ≡ write out.old 0 (keyed_to cells.now.keys cells.now.values cells.now.count) }
{
    for j in 0..cells.count {
        put_keyed(out, VALUED_SIZE * j, cells.keys[j], cells.values[j]);
    }
}
