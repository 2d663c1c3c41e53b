// `map_section` over polynomial records that are lent as a list of structs: their columns are copied out, mapped as plain numbers, and the positions
// written back. What is refused is decided before anything is written.
#![tactic(auto)]

ghost use Rattle.std.specs.Prelude.{◌≡◌, length};
ghost use Rattle.sections.specs.Sections.{known};
ghost use Rattle.sections.specs.Answer.{mapped_no};
ghost use Rattle.records.specs.Columns.{AdmittedIs};
ghost use Rattle.records.specs.Records.{sections_of, dims_of, positions_of, written, RecordsMapped};

use kinds::refusal::{NONE, Refusal};
use sections::map_section::{RECORD_LIMIT, WIDTHS, map_section, read_count};
use sections::section::Section;

#[repr(C)]
#[derive(Clone, Copy)]
pub struct PolType {
    pub section: u16,
    pub dim: u16,
    pub section_pos: u16,
}

fn known_sections(records: &[PolType]) -> bool
    ensures { result ≡ known (sections_of records.now) }
{
    records
        .iter()
        .all(|record| (record.section as usize) < Section::COUNT)
}

// Whether records are mapped, with lists of these lengths lent beside them.
fn admitted(
    records: &[PolType],
    sections: usize,
    dims: usize,
    positions: usize,
    widths: usize,
) -> Result<(), Refusal>
    ensures { AdmittedIs records.now sections dims positions widths result }
{
    let count = records.len();
    if !known_sections(&records[..read_count(count)]) {
        return Err(Refusal::Malformed);
    }
    if sections != count || dims != count || positions != count || widths != WIDTHS {
        return Err(Refusal::Malformed);
    }
    if RECORD_LIMIT < count {
        return Err(Refusal::Full);
    }
    Ok(())
}

fn copy_columns(records: &[PolType], sections: &mut [u16], dims: &mut [u16], positions: &mut [u16])
    requires { (length sections.old ≡ length records.now) × (length dims.old ≡ length records.now) × (length positions.old ≡ length records.now) }
    ensures sections { sections.new ≡ sections_of records.now }
    ensures dims { dims.new ≡ dims_of records.now }
    ensures positions { positions.new ≡ positions_of records.now }
{
    for i in 0..records.len() {
        sections[i] = records[i].section;
        dims[i] = records[i].dim;
        positions[i] = records[i].section_pos;
    }
}

fn write_positions(records: &mut [PolType], positions: &[u16])
    requires { length positions.now ≡ length records.old }
    ensures { records.new ≡ written positions.now records.old }
{
    for i in 0..records.len() {
        records[i].section_pos = positions[i];
    }
}

fn map_records(
    records: &mut [PolType],
    sections: &mut [u16],
    dims: &mut [u16],
    positions: &mut [u16],
    widths: &mut [u16],
) -> Result<(), Refusal>
    ensures { RecordsMapped records.old records.new sections.old sections.new dims.old dims.new positions.old positions.new widths.old widths.new (mapped_no result) }
{
    admitted(
        records,
        sections.len(),
        dims.len(),
        positions.len(),
        widths.len(),
    )?;
    copy_columns(records, sections, dims, positions);
    map_section(sections, dims, positions, widths)?;
    write_positions(records, positions);
    Ok(())
}

// The answer's number: a program in another language calls this.
pub fn enonkasse_map_section(
    rs: &mut [PolType],
    sections: &mut [u16],
    dims: &mut [u16],
    positions: &mut [u16],
    widths: &mut [u16],
) -> u8
    ensures { RecordsMapped rs.old rs.new sections.old sections.new dims.old dims.new positions.old positions.new widths.old widths.new result }
{
    match map_records(rs, sections, dims, positions, widths) {
        Ok(()) => NONE,
        Err(refusal) => u8::from(refusal),
    }
}
