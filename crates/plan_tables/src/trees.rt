// The tree of each cm number: tree1 to tree4 by the section of its record in "2ns", with position and dimension.
ghost use Rattle.std.specs.Prelude.{◌≤◌, ◌<◌, ◌≡◌, length, take};
ghost use Rattle.kinds.specs.Range.{within};
ghost use Rattle.plans.specs.Columns.{record_limit};
ghost use Rattle.map_records.specs.Mapping.{cm1_n, cm4_n, twin};
ghost use Rattle.plan_tables.specs.Tables.{tree_word, trees_in};
ghost use Rattle.plan_tables.specs.Listed.{Listed, Put};

use crate::packed::pack;
use kinds::kind::Kind;
use sections::map_section::RECORD_LIMIT;
use sections::section::Section;

// Behind the n that are there, where the record is a cm's in "2ns".
fn put_tree(
    trees: &mut [u64; RECORD_LIMIT],
    n: usize,
    section: u16,
    position: u16,
    dim: u16,
) -> usize
    requires { n < record_limit }
    ensures { Put (within (twin cm1_n) (twin cm4_n) section) trees.old trees.new n (tree_word section position dim) result }
{
    if section < Section::CM1_2NS {
        return n;
    }
    if Section::CM4_2NS < section {
        return n;
    }
    let kind = Kind::TREE1 + (section - Section::CM1_2NS) as u8;
    trees[n] = pack(kind, position as usize, dim);
    n + 1
}

// Of the first `count` records; answers how many cm there are.
pub fn fill_trees(
    sections: &[u16; RECORD_LIMIT],
    dims: &[u16; RECORD_LIMIT],
    positions: &[u16; RECORD_LIMIT],
    count: usize,
    trees: &mut [u64; RECORD_LIMIT],
) -> usize
    requires { (length sections.now ≡ record_limit) × (count ≤ record_limit) }
    ensures { Listed trees.old trees.new result (trees_in (take count sections.now) (take count dims.now) (take count positions.now)) }
{
    let mut n: usize = 0;
    for k in 0..count {
        n = put_tree(trees, n, sections[k], positions[k], dims[k]);
    }
    n
}
