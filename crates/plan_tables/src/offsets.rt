// Where each section begins, and how much all take together.
ghost use Rattle.std.specs.Prelude.{◌*◌, ◌≤◌, ◌≡◌, length};
ghost use Rattle.plan_tables.specs.Tables.{rows_of, offsets_of, offset_count};
ghost use Rattle.plan_tables.specs.Bounds.{BitsFew, Below, row_limit, size_limit};

use sections::map_section::WIDTHS;
use sections::section::Section;

// One for each section, and the total.
pub const OFFSETS: usize = Section::COUNT + 1;

// The sections up to that of the temporary columns are of the domain "n".
fn section_rows(n_bits: u8, n_bits_ext: u8, section: usize) -> u64
    requires { BitsFew n_bits n_bits_ext }
    ensures { Below result (rows_of n_bits n_bits_ext section) row_limit }
{
    if section <= Section::TMPEXP_N as usize {
        return 1u64 << n_bits;
    }
    1u64 << n_bits_ext
}

fn section_size(rows: u64, width: u16) -> u64
    requires { rows ≤ row_limit }
    ensures { Below result (rows * width) size_limit }
{
    rows * width as u64
}

// With N of each section from the widths that `map_section` writes.
pub fn fill_offsets(
    widths: &[u16; WIDTHS],
    n_bits: u8,
    n_bits_ext: u8,
    offsets: &mut [u64; OFFSETS],
)
    requires { BitsFew n_bits n_bits_ext × (length offsets.old ≡ offset_count) }
    ensures { offsets.new ≡ offsets_of n_bits n_bits_ext widths.now }
{
    let mut at: u64 = 0;
    for s in 0..Section::COUNT {
        offsets[s] = at;
        let rows = section_rows(n_bits, n_bits_ext, s);
        at += section_size(rows, widths[Section::COUNT + s]);
    }
    offsets[Section::COUNT] = at;
}
