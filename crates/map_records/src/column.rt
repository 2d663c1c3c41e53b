// A temporary column for an expression, unless it is an intermediate or has one.
ghost use Rattle.map_records.specs.Tables.{ColumnAsked, ColumnGiven};

use crate::records::add_record;
use plans::count::ask;
use sections::map_section::RECORD_LIMIT;
use sections::section::Section;

// With what is `seen`: the expressions that get no column any more.
pub fn add_column(
    sections: &mut [u16; RECORD_LIMIT],
    dims: &mut [u16; RECORD_LIMIT],
    seen: &mut [u8],
    n: usize,
    e: usize,
    dim: u16,
) -> usize
    requires { ColumnAsked sections.old dims.old seen.old n e dim }
    ensures { ColumnGiven sections.old sections.new dims.old dims.new seen.old seen.new n e dim result }
{
    if ask(seen, e) == 0 {
        return n;
    }
    add_record(sections, dims, n, Section::TMPEXP_N, dim);
    n + 1
}
