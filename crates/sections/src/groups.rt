// The groups of a section, one for each dimension: what its records take, and where the next one goes.
ghost use Rattle.std.specs.Prelude.{◌≡◌, ◌+◌, ◌*◌, ◌≤◌, ◌<◌, length, replicate};
ghost use Rattle.kinds.specs.Write.{write};
ghost use Rattle.sections.specs.Sums.{each};
ghost use Rattle.sections.specs.Sections.{section_count, positions_from};
ghost use Rattle.sections.specs.Groups.{group_count, group_at, Records, Tallied, Small, added, next_in, width_in};

use crate::section::Section;

const DIMENSIONS: u16 = 3;

// A section's groups stand one after the other, from that of dimension 0, which takes nothing.
const STRIDE: usize = DIMENSIONS as usize + 1;

pub const GROUPS: usize = STRIDE * Section::COUNT;

// The widths of a section: after dimension 1, after dimension 3, and a third of what lies between.
#[derive(Clone, Copy)]
pub enum Width {
    First,
    Whole,
    Third,
}

fn group(section: u16, dim: usize) -> usize
    requires { (section < section_count) × (dim ≤ 3) }
    ensures { result ≡ group_at section dim }
{
    section as usize * STRIDE + dim
}

fn add_record(groups: &mut [u16; GROUPS], section: u16, dim: u16)
    requires { (section < section_count) × (Small groups.old) }
    ensures { groups.new ≡ added groups.old section dim }
{
    if dim <= DIMENSIONS {
        let at = group(section, dim as usize);
        let taken = groups[at];
        groups[at] = taken + dim;
    }
}

// What each group takes.
pub fn tally(sections: &[u16], dims: &[u16], groups: &mut [u16; GROUPS])
    requires { (Records sections.now dims.now) × (groups.old ≡ replicate group_count 0) }
    ensures { Tallied sections.now dims.now (length dims.now) groups.new }
{
    for i in 0..dims.len() {
        add_record(groups, sections[i], dims[i]);
    }
}

// The position of the next record of a group, where its dimension has one.
fn next_position(all: &[u16; GROUPS], gone: &[u16; GROUPS], section: u16, dim: u16, old: u16) -> u16
    requires { (section < section_count) × (Small all.now) × (Small gone.now) }
    ensures { result ≡ next_in all.now gone.now section dim old }
{
    match dim {
        1 => gone[group(section, 1)],
        2 => all[group(section, 1)] + gone[group(section, 2)],
        3 => all[group(section, 1)] + all[group(section, 2)] + gone[group(section, 3)],
        _ => old,
    }
}

// Writes each record's position, with the groups of all records.
pub fn place(sections: &[u16], dims: &[u16], all: &[u16; GROUPS], positions: &mut [u16])
    requires { (Records sections.now dims.now) × (length positions.old ≡ length dims.now) × (Tallied sections.now dims.now (length dims.now) all.now) }
    ensures { positions.new ≡ positions_from sections.now dims.now positions.old }
{
    let mut gone = [0u16; GROUPS];
    for i in 0..dims.len() {
        let section = sections[i];
        let dim = dims[i];
        let old = positions[i];
        positions[i] = next_position(all, &gone, section, dim, old);
        add_record(&mut gone, section, dim);
    }
}

impl Width {
    fn of(self, groups: &[u16; GROUPS], section: u16) -> u16
        requires { (section < section_count) × (Small groups.now) }
        ensures { result ≡ width_in groups.now self section }
    {
        let one = groups[group(section, 1)];
        let two = groups[group(section, 2)];
        let three = groups[group(section, 3)];
        match self {
            Width::First => one,
            Width::Whole => one + two + three,
            Width::Third => (two + three) / 3,
        }
    }
}

// Writes one of the widths of each section.
pub fn put_widths(groups: &[u16; GROUPS], which: Width, widths: &mut [u16], at: usize)
    requires { (Small groups.now) × (at + section_count ≤ length widths.old) }
    ensures { widths.new ≡ write widths.old at (each (width_in groups.now which) section_count) }
{
    for s in 0..Section::COUNT {
        widths[at + s] = which.of(groups, s as u16);
    }
}
