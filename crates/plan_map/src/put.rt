// Numbers of two bytes, the high byte first, put into the answer. Each function answers where what it puts ends.
ghost use Rattle.std.specs.Prelude.{◌+◌, ◌*◌, ◌/◌, ◌%◌, ◌≤◌, ◌≡◌, [], ◌∷◌, length, take};
ghost use Rattle.plans.specs.Columns.{record_limit};
ghost use Rattle.plan_tables.specs.Tables.{offset_count};
ghost use Rattle.plan_map.specs.Numbers.{quarters, rows_by, offset_row, record_row, column_row};
ghost use Rattle.plan_map.specs.Puts.{Puts};

use kinds::big_endian::put_u16;
use plan_tables::offsets::OFFSETS;
use sections::map_section::RECORD_LIMIT;

const NUMBER_SIZE: usize = 2;

pub fn put_pair(a: u16, b: u16, out: &mut [u8], at: usize) -> usize
    requires { at + 4 ≤ length out.old }
    ensures { Puts out.old at (a ∷ b ∷ []) out.new result }
{
    put_u16(out, at, a);
    put_u16(out, at + NUMBER_SIZE, b);
    at + 2 * NUMBER_SIZE
}

fn put_record(section: u16, dim: u16, position: u16, out: &mut [u8], at: usize) -> usize
    requires { at + 6 ≤ length out.old }
    ensures { Puts out.old at (section ∷ dim ∷ position ∷ []) out.new result }
{
    put_u16(out, at, section);
    put_pair(dim, position, out, at + NUMBER_SIZE)
}

// An offset has eight bytes.
fn put_offset(x: u64, out: &mut [u8], at: usize) -> usize
    requires { at + 8 ≤ length out.old }
    ensures { Puts out.old at (quarters x) out.new result }
{
    let high = x / 0x1_0000_0000;
    let low = x % 0x1_0000_0000;
    let half = put_pair((high / 0x1_0000) as u16, (high % 0x1_0000) as u16, out, at);
    put_pair((low / 0x1_0000) as u16, (low % 0x1_0000) as u16, out, half)
}

pub fn put_offsets(offsets: &[u64; OFFSETS], out: &mut [u8]) -> usize
    requires { (length offsets.now ≡ offset_count) × (8 * offset_count ≤ length out.old) }
    ensures { Puts out.old 0 (rows_by (offset_row offsets.now) offset_count) out.new result }
{
    let mut at: usize = 0;
    for offset in offsets {
        at = put_offset(*offset, out, at);
    }
    at
}

// The first n.
pub fn put_numbers(numbers: &[u16], n: usize, out: &mut [u8], from: usize) -> usize
    requires { (n ≤ length numbers.now) × (from + 2 * n ≤ length out.old) }
    ensures { Puts out.old from (take n numbers.now) out.new result }
{
    let mut at = from;
    for number in &numbers[..n] {
        put_u16(out, at, *number);
        at += NUMBER_SIZE;
    }
    at
}

// Section, dimension and position of the first n.
pub fn put_records(
    sections: &[u16; RECORD_LIMIT],
    dims: &[u16; RECORD_LIMIT],
    positions: &[u16; RECORD_LIMIT],
    n: usize,
    out: &mut [u8],
    from: usize,
) -> usize
    requires { (n ≤ record_limit) × (from + 6 * n ≤ length out.old) }
    ensures { Puts out.old from (rows_by (record_row sections.now dims.now positions.now) n) out.new result }
{
    let mut at = from;
    for k in 0..n {
        at = put_record(sections[k], dims[k], positions[k], out, at);
    }
    at
}

// Expression and record of the first n temporary columns.
pub fn put_columns(
    columns: &[u16; RECORD_LIMIT],
    records: &[u16; RECORD_LIMIT],
    n: usize,
    out: &mut [u8],
    from: usize,
) -> usize
    requires { (n ≤ record_limit) × (from + 4 * n ≤ length out.old) }
    ensures { Puts out.old from (rows_by (column_row columns.now records.now) n) out.new result }
{
    let mut at = from;
    for k in 0..n {
        at = put_pair(columns[k], records[k], out, at);
    }
    at
}
