// The entries of a table from q numbers to expressions, which is read where it stands in a plan: two bytes each, the high one first.
ghost use Rattle.std.specs.Prelude.{◌≡◌, ◌<◌, length, get_or};
ghost use Rattle.pool.specs.Entries.{entries_in};

use kinds::big_endian::u16_at;

const ENTRY_SIZE: usize = 2;

pub fn entry_count(table: &[u8]) -> usize
    ensures { result ≡ length (entries_in table.now) }
{
    table.len() / ENTRY_SIZE
}

pub fn entry_at(table: &[u8], q: usize) -> usize
    requires { q < length (entries_in table.now) }
    ensures { result ≡ get_or (entries_in table.now) q 0 }
{
    u16_at(table, ENTRY_SIZE * q) as usize
}
