// Has each reference of a list a rule, and is each cm there?
ghost use Rattle.std.specs.Prelude.{◌≡◌};
ghost use Rattle.lent_lists.specs.Verdicts.{verdict_no, judged_no};
ghost use Rattle.fixing.specs.ProverCode.{ruled_reference, decided};

use crate::temporaries::LAST_COUNTER;
use kinds::big_endian::u16_at;
use kinds::kind::Kind;
use kinds::refusal::Refusal;
use lent_lists::judge::{Judge, judge_lists};
use lent_lists::records::good_lists;
use lists::places::ID;

// For each cm number its record in this domain.
#[derive(Clone, Copy)]
struct Records<'a> {
    cms: &'a [u16],
}

// tree1 to tree4 and Z have no rule; a cm needs a record in this domain.
impl<'a> Judge for Records<'a> {
    ghost verdict = { λ s r. ruled_reference s.cms.now r };

    fn judge(&self, list: &[u8], at: usize) -> Result<(), Refusal> {
        match list[at] {
            Kind::CM => {
                if self.cms.len() <= u16_at(list, at + ID) as usize {
                    return Err(Refusal::NotThere);
                }
                Ok(())
            }
            Kind::TREE1..=Kind::Z => Err(Refusal::NoRule),
            _ => Ok(()),
        }
    }
}

// Malformed, not there or without a rule: all that can be refused before temporaries are counted.
pub fn decide(
    cms: &[u16],
    counter: usize,
    first: &[u8],
    i: &[u8],
    last: &[u8],
) -> Result<(), Refusal>
    ensures { judged_no result ≡ verdict_no (decided cms.now counter first.now i.now last.now) }
{
    if LAST_COUNTER < counter {
        return Err(Refusal::Malformed);
    }
    if !good_lists(first, i, last) {
        return Err(Refusal::Malformed);
    }
    judge_lists(&Records { cms }, first, i, last)
}
