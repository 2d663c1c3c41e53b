// Sections over a list of structs.
ghost use Rattle.records.specs.Records.{RecordsMapped};

use records::PolType;

#[unsafe(no_mangle)]
pub extern "C" fn enonkasse_map_section(
    rs: &mut [PolType],
    sections: &mut [u16],
    dims: &mut [u16],
    positions: &mut [u16],
    widths: &mut [u16],
) -> u8
    ensures { RecordsMapped rs.old rs.new sections.old sections.new dims.old dims.new positions.old positions.new widths.old widths.new result }
{
    records::enonkasse_map_section(rs, sections, dims, positions, widths)
}
