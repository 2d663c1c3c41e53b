// The parts of the answer: the sections with their records, the cm, the expressions.
ghost use Rattle.std.specs.Prelude.{length, take};
ghost use Rattle.plan_tables.specs.Tables.{numbers_in};
ghost use Rattle.plan_map.specs.Puts.{Puts};
ghost use Rattle.plan_map.specs.Parts.{PlaceAsked, PlaceGiven, HeadAsked, HeadGiven, SectionsAsked, SectionsGiven, NumbersAsked, CmsAsked, CmsGiven, ExpressionsAsked, ExpressionsGiven};

use crate::put::{put_columns, put_numbers, put_offsets, put_pair, put_records};
use frames::count::EXPRESSION_LIMIT;
use plan_tables::exp2pol::{NO_RECORD, fill_exp2pol};
use plan_tables::numbers::record_numbers;
use plan_tables::offsets::{OFFSETS, fill_offsets};
use planning::answer::Plan;
use sections::map_section::{RECORD_LIMIT, WIDTHS, map_section};
use sections::section::Section;

// The bytes before the records: the offsets, the counts and the widths.
pub const HEAD_SIZE: usize = 8 * OFFSETS + 2 * 4 + 2 * WIDTHS;

// Of the first n records, whose sections there are: none is refused.
fn place_records(
    sections: &[u16],
    dims: &[u16],
    n: usize,
    positions: &mut [u16],
    widths: &mut [u16],
)
    requires { PlaceAsked sections.now dims.now n positions.old widths.old }
    ensures { PlaceGiven sections.now dims.now n positions.new widths.new }
{
    let _ = map_section(&sections[..n], &dims[..n], &mut positions[..n], widths);
}

fn put_head(
    plan: &[u8],
    widths: &[u16; WIDTHS],
    records: usize,
    cms: usize,
    columns: usize,
    q_dim: u16,
    out: &mut [u8],
) -> usize
    requires { HeadAsked plan.now widths.now records cms columns (length out.old) }
    ensures { HeadGiven plan.now widths.now records cms columns q_dim out.old out.new result }
{
    let mut offsets = [0u64; OFFSETS];
    fill_offsets(widths, plan[0], plan[1], &mut offsets);
    let counts = put_offsets(&offsets, out);
    let more = put_pair(records as u16, cms as u16, out, counts);
    let end = put_pair(columns as u16, q_dim, out, more);
    put_numbers(widths, WIDTHS, out, end)
}

// Offsets, counts, widths, and the records with their positions.
pub fn put_sections(
    plan: &[u8],
    sections: &[u16; RECORD_LIMIT],
    dims: &[u16; RECORD_LIMIT],
    k: Plan,
    cms: usize,
    columns: usize,
    out: &mut [u8],
) -> usize
    requires { SectionsAsked plan.now sections.now dims.now k cms columns (length out.old) }
    ensures { SectionsGiven plan.now sections.now dims.now k cms columns out.old out.new result }
{
    let n = k.records;
    let mut positions = [0u16; RECORD_LIMIT];
    let mut widths = [0u16; WIDTHS];
    place_records(sections, dims, n, &mut positions, &mut widths);
    let end = put_head(plan, &widths, n, cms, columns, k.q_dim, out);
    put_records(sections, dims, &positions, n, out, end)
}

// The numbers of the first n records in sections `first` to `last`.
fn put_record_numbers(
    sections: &[u16; RECORD_LIMIT],
    n: usize,
    first: u16,
    last: u16,
    out: &mut [u8],
    at: usize,
) -> usize
    requires { NumbersAsked sections.now n first last at (length out.old) }
    ensures { Puts out.old at (numbers_in first last 0 (take n sections.now)) out.new result }
{
    let mut numbers = [0u16; RECORD_LIMIT];
    let count = record_numbers(sections, n, first, last, &mut numbers);
    put_numbers(&numbers, count, out, at)
}

// cm_n, cm_2ns and cm_dims.
pub fn put_cms(
    sections: &[u16; RECORD_LIMIT],
    cmdims: &[u16],
    n: usize,
    cms: usize,
    out: &mut [u8],
    at: usize,
) -> usize
    requires { CmsAsked sections.now cmdims.now n cms at (length out.old) }
    ensures { CmsGiven sections.now cmdims.now n cms at out.old out.new result }
{
    let extended = put_record_numbers(sections, n, Section::CM1_N, Section::CM4_N, out, at);
    let dims = put_record_numbers(
        sections,
        n,
        Section::CM1_2NS,
        Section::CM4_2NS,
        out,
        extended,
    );
    put_numbers(cmdims, cms, out, dims)
}

// The temporary columns with their records, and exp2pol of m expressions.
pub fn put_expressions(
    plan: &[u8],
    sections: &[u16; RECORD_LIMIT],
    n: usize,
    m: usize,
    columns: &[u16; RECORD_LIMIT],
    count: usize,
    out: &mut [u8],
    at: usize,
) -> usize
    requires { ExpressionsAsked plan.now sections.now n m columns.now count at (length out.old) }
    ensures { ExpressionsGiven plan.now sections.now n m columns.now count at out.old out.new result }
{
    let mut cms = [0u16; RECORD_LIMIT];
    record_numbers(sections, n, Section::CM1_N, Section::CM4_N, &mut cms);
    let mut records = [0u16; RECORD_LIMIT];
    record_numbers(
        sections,
        n,
        Section::TMPEXP_N,
        Section::TMPEXP_N,
        &mut records,
    );
    let mut exp2pol = [NO_RECORD; EXPRESSION_LIMIT];
    fill_exp2pol(plan, columns, &records, count, &cms, &mut exp2pol);
    let end = put_columns(columns, &records, count, out, at);
    put_numbers(&exp2pol, m, out, end)
}
