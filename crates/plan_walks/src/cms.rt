// The record of each cm number.
ghost use Rattle.plan_walks.specs.Cms.{CmsAsked, CmsGiven};

use plan_tables::numbers::record_numbers;
use sections::map_section::RECORD_LIMIT;
use sections::section::Section;

// In a domain, "n" or "2ns"; answers how many.
pub fn fill_cms(
    in_n: bool,
    sections: &[u16; RECORD_LIMIT],
    records: usize,
    cms: &mut [u16; RECORD_LIMIT],
) -> usize
    requires { CmsAsked sections.now records }
    ensures { CmsGiven in_n sections.now records cms.old cms.new result }
{
    if in_n {
        return record_numbers(sections, records, Section::CM1_N, Section::CM4_N, cms);
    }
    record_numbers(sections, records, Section::CM1_2NS, Section::CM4_2NS, cms)
}
