// `map_section`: the position of each record in its section, and each section's widths.
ghost use Rattle.std.specs.Prelude.{◌≡◌, ◌≤◌, length};
ghost use Rattle.sections.specs.Sections.{known, width_count, widths};
ghost use Rattle.sections.specs.Groups.{Records, count_to_read};
ghost use Rattle.sections.specs.Answer.{MappedIs, Written};

use crate::groups::{GROUPS, Width, place, put_widths, tally};
use crate::section::Section;
use kinds::refusal::Refusal;

// At most so many records, as of a plan.
pub const RECORD_LIMIT: usize = 4096;

// N1 of each section, then N of each, then N3 of each.
pub const WIDTHS: usize = 3 * Section::COUNT;

fn known_sections(sections: &[u16]) -> bool
    ensures { result ≡ known sections.now }
{
    sections
        .iter()
        .all(|section| (*section as usize) < Section::COUNT)
}

fn write_records(sections: &[u16], dims: &[u16], positions: &mut [u16], widths: &mut [u16])
    requires { (Records sections.now dims.now) × (length positions.old ≡ length dims.now) × (length widths.old ≡ width_count) }
    ensures { Written sections.now dims.now positions.old positions.new widths.new }
{
    let mut groups = [0u16; GROUPS];
    tally(sections, dims, &mut groups);
    place(sections, dims, &groups, positions);
    put_widths(&groups, Width::First, widths, 0);
    put_widths(&groups, Width::Whole, widths, Section::COUNT);
    put_widths(&groups, Width::Third, widths, 2 * Section::COUNT);
}

// How many records are read before one is past the limit.
pub fn read_count(count: usize) -> usize
    ensures { result ≡ count_to_read count }
{
    count.min(RECORD_LIMIT + 1)
}

pub fn map_section(
    sections: &[u16],
    dims: &[u16],
    positions: &mut [u16],
    widths: &mut [u16],
) -> Result<(), Refusal>
    ensures { MappedIs sections.now dims.now positions.old positions.new widths.old widths.new result }
{
    if dims.len() != sections.len() || positions.len() != sections.len() || widths.len() != WIDTHS {
        return Err(Refusal::Malformed);
    }
    if !known_sections(&sections[..read_count(sections.len())]) {
        return Err(Refusal::Malformed);
    }
    if RECORD_LIMIT < sections.len() {
        return Err(Refusal::Full);
    }
    write_records(sections, dims, positions, widths);
    Ok(())
}
