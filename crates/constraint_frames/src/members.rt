// The members of a set in ascending order, and whether the words of a set are good for a pool.
ghost use Rattle.std.specs.Prelude.{◌≡◌};
ghost use Rattle.sets.specs.Members.{members as numbers};
ghost use Rattle.constraint_frames.specs.Listing.{Listed, set_good};

use degree_search::admitted::all_below;
use frames::count::EXPRESSION_LIMIT;
use sets::{SET_WORDS, has};

// Where the size of a set stands.
const SIZE: usize = 8;

// Puts them at the front of `out`, and answers how many there are.
pub fn list_members(set: &[u64; SET_WORDS], out: &mut [u64; EXPRESSION_LIMIT]) -> usize
    ensures { Listed set.now out.old out.new result }
{
    let mut count: usize = 0;
    for e in 0..EXPRESSION_LIMIT {
        if has(set, e) {
            out[count] = e as u64;
            count += 1;
        }
    }
    count
}

// Of a pool of `m` expressions; `members` are the set's.
pub fn is_good(set: &[u64; SET_WORDS], members: &[u64], m: usize) -> bool
    requires { members.now ≡ numbers set.now }
    ensures { result ≡ set_good m set.now }
{
    set[SIZE] == members.len() as u64 && all_below(members, m)
}
