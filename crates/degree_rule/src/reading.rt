// What reading a tree gives, and the better of two readings.
ghost use Rattle.std.specs.Prelude.{◌≡◌, ◌≤◌};
ghost use Rattle.kinds.specs.Answers.{blaming_none};
ghost use Rattle.sets.specs.Members.{Good};
ghost use Rattle.degree_rule.specs.Tallies.{Whole};
ghost use Rattle.degree_rule.specs.Readings.{refusal_in, reading_of, degree_at, degree_in, settled_in, Betters, Passed};

use crate::tally::Tally;
use kinds::refusal::{Refusal, Refused};
use sets::{SET_WORDS, size};

// Why a search ends: refusal 6 or 15.
#[derive(Clone, Copy, Debug, PartialEq, Eq)]
pub enum Stop {
    BadKind,
    OverLimit,
}

impl From<Stop> for Refused {
    ghost from_gives = { λ s f. f ≡ blaming_none (refusal_in s) };

    fn from(stop: Stop) -> Refused {
        match stop {
            Stop::BadKind => Refusal::SearchKind.into(),
            Stop::OverLimit => Refusal::Visits.into(),
        }
    }
}

// A degree, whose set stands beside it in the working set, or none.
pub type Reading = Result<Option<u64>, Stop>;

// A reading as a number: it comes back in a register, where the recursion is thousands of calls deep and each word in its frames counts. A degree stands for itself, and
// none is above 17.
pub const NOTHING: u64 = 18;

pub const BAD_KIND: u64 = 19;

pub const OVER_LIMIT: u64 = 20;

pub fn decode(code: u64) -> Reading
    ensures { result ≡ reading_of code }
{
    if code < NOTHING {
        return Ok(Some(code));
    }
    if code == NOTHING {
        return Ok(None);
    }
    if code == BAD_KIND {
        return Err(Stop::BadKind);
    }
    Err(Stop::OverLimit)
}

pub fn encode(reading: Reading) -> u64
    requires { degree_in reading ≤ 17 }
    ensures { reading_of result ≡ reading }
{
    match reading {
        Ok(degree) => degree.unwrap_or(NOTHING),
        Err(Stop::BadKind) => BAD_KIND,
        Err(Stop::OverLimit) => OVER_LIMIT,
    }
}

// The degree of a reading as a number, where it has one.
pub fn degree(code: u64) -> Option<u64>
    ensures { result ≡ degree_at (reading_of code) }
{
    if code < NOTHING {
        return Some(code);
    }
    None
}

// The second of two trees after a first that gave no degree: entered with no set it is one visit all the same.
pub fn passed(first: Reading, tally: &mut Tally) -> Reading
    requires { Whole tally.old }
    ensures { Passed first tally.old result tally.new }
{
    let degree = first?;
    if degree.is_none() && !tally.enter() {
        return Err(Stop::OverLimit);
    }
    first
}

// A smaller set replaces the best so far, so that the first smallest wins.
pub fn better(
    kept: Reading,
    best: &mut [u64; SET_WORDS],
    here: Reading,
    set: &[u64; SET_WORDS],
) -> Reading
    requires { Good best.old × Good set.now }
    ensures { Betters kept best.old here set.now result best.new }
{
    if !matches!(here, Ok(Some(_))) {
        return kept;
    }
    if !matches!(kept, Ok(Some(_))) || size(set) < size(best) {
        *best = *set;
        return here;
    }
    kept
}

// The best so far adds no member.
pub fn settled(kept: Reading, best: &[u64; SET_WORDS], before: &[u64; SET_WORDS]) -> bool
    requires { Good best.now × Good before.now }
    ensures { result ≡ settled_in kept best.now before.now }
{
    matches!(kept, Ok(Some(_))) && size(best) == size(before)
}
