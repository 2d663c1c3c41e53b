// Records, put at the end of those that are there.
ghost use Rattle.std.specs.Prelude.{◌≡◌, ◌+◌, ◌<◌, set};
ghost use Rattle.map_records.specs.Mapping.{twin};
ghost use Rattle.plans.specs.Columns.{record_limit};

use sections::map_section::RECORD_LIMIT;
use sections::section::Section;

// From a section of the domain "n" to its twin in "2ns".
const TWIN: u16 = Section::CM1_2NS - Section::CM1_N;

pub fn add_record(
    sections: &mut [u16; RECORD_LIMIT],
    dims: &mut [u16; RECORD_LIMIT],
    n: usize,
    section: u16,
    dim: u16,
)
    requires { n < record_limit }
    ensures { (sections.new ≡ set sections.old n section) × (dims.new ≡ set dims.old n dim) }
{
    sections[n] = section;
    dims[n] = dim;
}

// The two records of a cm: in the domain "n", and in "2ns".
pub fn add_pair(
    sections: &mut [u16; RECORD_LIMIT],
    dims: &mut [u16; RECORD_LIMIT],
    n: usize,
    section: u16,
    dim: u16,
)
    requires { (n + 1 < record_limit) × (section < 5) }
    ensures { (sections.new ≡ set (set sections.old n section) (n + 1) (twin section)) × (dims.new ≡ set (set dims.old n dim) (n + 1) dim) }
{
    add_record(sections, dims, n, section, dim);
    add_record(sections, dims, n + 1, section + TWIN, dim);
}
