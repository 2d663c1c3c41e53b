// What a walk answers, and which lists it takes.
ghost use Rattle.std.specs.Prelude.{◌≡◌};
ghost use Rattle.plan_walks.specs.Walks.{good_segment};

use lent_lists::records::good_lists;

// A counter of a segment has 16 bits.
const LAST_COUNTER: usize = 65535;

pub const DOMAIN_N: u8 = 0;

pub const DOMAIN_2NS: u8 = 1;

// A domain that there is, a counter, and three lists of whole records.
pub fn is_segment(domain: u8, counter: usize, first: &[u8], i: &[u8], last: &[u8]) -> bool
    ensures { result ≡ good_segment domain counter first.now i.now last.now }
{
    if DOMAIN_2NS < domain {
        return false;
    }
    if LAST_COUNTER < counter {
        return false;
    }
    good_lists(first, i, last)
}
