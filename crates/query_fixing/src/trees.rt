// A cm's tree, by its record in "2ns": kind, position and dimension in one number.
ghost use Rattle.std.specs.Prelude.{◌≡◌};
ghost use Rattle.query_fixing.specs.QueryCode.{tree_for, has_tree, treed_reference, tree_reference};

use kinds::big_endian::u16_at;
use kinds::kind::Kind;
use kinds::reference::{Reference, put_reference, reference_at};
use kinds::refusal::Refusal;
use lent_lists::judge::Judge;
use lent_lists::rewrite::Rewrite;
use lists::places::ID;

const KIND_UNIT: u64 = 0x100000000;

const UNIT: u64 = 0x10000;

const FIRST_TREE: u64 = Kind::TREE1 as u64;

const LAST_TREE: u64 = Kind::TREE4 as u64;

fn has_tree(tree: u64) -> bool
    ensures { result ≡ has_tree tree }
{
    let kind = tree / KIND_UNIT;
    FIRST_TREE <= kind && kind <= LAST_TREE
}

#[derive(Clone, Copy)]
pub struct Trees<'a> {
    pub trees: &'a [u64],
}

impl<'a> Trees<'a> {
    // The number of a cm that has none is 0.
    fn of(&self, id: u16) -> u64
        ensures { result ≡ tree_for self.now.trees.now id }
    {
        *self.trees.get(id as usize).unwrap_or(&0)
    }

    // With the tree's position and dimension; id and p stay.
    fn reference(&self, r: Reference) -> Reference
        ensures { result ≡ tree_reference self.now.trees.now r }
    {
        if r.kind != Kind::CM {
            return r;
        }
        let tree = self.of(r.id);
        Reference {
            kind: (tree / KIND_UNIT % 256) as u8,
            dim: (tree % UNIT) as u16,
            tree_pos: (tree / UNIT % UNIT) as u16,
            ..r
        }
    }
}

// A cm needs a tree; any other reference stays.
impl<'a> Judge for Trees<'a> {
    ghost verdict = { λ s r. treed_reference s.trees.now r };

    fn judge(&self, list: &[u8], at: usize) -> Result<(), Refusal> {
        if list[at] != Kind::CM {
            return Ok(());
        }
        if has_tree(self.of(u16_at(list, at + ID))) {
            return Ok(());
        }
        Err(Refusal::NotThere)
    }
}

// Any reference but a cm stays.
impl<'a> Rewrite for Trees<'a> {
    ghost made = { λ s r. tree_reference s.trees.now r };

    fn rewrite(&self, list: &mut [u8], at: usize) {
        if list[at] == Kind::CM {
            let r = reference_at(list, at);
            put_reference(list, at, self.reference(r))
        }
    }
}
