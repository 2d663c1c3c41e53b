// The candidate that is kept.
ghost use Rattle.std.specs.Prelude.{◌≡◌, ◌||◌, ◌+◌, ◌<◌, eqb, ltb};
ghost use Rattle.search_meaning.specs.Search.{q_of};
ghost use Rattle.sets.specs.Members.{Good};
ghost use Rattle.degree_search.specs.Choosing.{Keeps};

use degree_rule::reading::Reading;
use sets::{SET_WORDS, size};

// What a q of -1 counts as.
const MINUS_ONE: u64 = 0xffff_ffff_ffff_ffff;

// No set is larger.
const SIZE_LIMIT: u64 = 512;

fn quotient(degree: u64) -> u64
    ensures { result ≡ q_of degree }
{
    if degree == 0 {
        return MINUS_ONE;
    }
    degree - 1
}

// Is size + q less than the other's? By the difference of both q, since a sum may pass 64 bits.
fn lighter(size: u64, q: u64, other: u64, other_q: u64) -> bool
    requires { (size < 513) × (other < 513) }
    ensures { result ≡ ltb (size + q) (other + other_q) }
{
    if q < other_q {
        let more = other_q - q;
        if SIZE_LIMIT < more {
            return true;
        }
        return size < other + more;
    }
    let more = q - other_q;
    if SIZE_LIMIT < more {
        return false;
    }
    size + more < other
}

// A candidate replaces the kept one where the kept q is 0, or where its size and q are less.
fn replaces(degree: u64, size: u64, kept: u64, kept_size: u64) -> bool
    requires { (size < 513) × (kept_size < 513) }
    ensures { result ≡ (eqb (q_of kept) 0 || ltb (size + q_of degree) (kept_size + q_of kept)) }
{
    let q = quotient(kept);
    if q == 0 {
        return true;
    }
    lighter(size, quotient(degree), kept_size, q)
}

pub fn keep(
    kept: Reading,
    best: &mut [u64; SET_WORDS],
    here: Reading,
    set: &[u64; SET_WORDS],
) -> Reading
    requires { Good best.old × Good set.now }
    ensures { Keeps kept best.old here set.now result best.new }
{
    let Ok(Some(degree)) = here else {
        return kept;
    };
    let Ok(Some(before)) = kept else {
        *best = *set;
        return here;
    };
    if replaces(degree, size(set), before, size(best)) {
        *best = *set;
        return here;
    }
    kept
}
