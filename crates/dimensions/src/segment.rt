// The lists of a segment, one after the other, with one table of temporaries: decided first, and written only where nothing is refused.
ghost use Rattle.std.specs.Prelude.{◌≡◌, true, [], ◌∷◌};
ghost use Rattle.lists.specs.Records.{good_list};
ghost use Rattle.step_dimensions.specs.StepDimensions.{unwritten};
ghost use Rattle.dimensions.specs.Dimensions.{passed_lists};
ghost use Rattle.step_dimensions.specs.Answers.{given};
ghost use Rattle.dimensions.specs.Answers.{decided_refusal, refusal_of, WritesLists};

use crate::pass::{decide_list, write_list};
use kinds::refusal::Refusal;
use step_dimensions::lent::Lent;
use step_dimensions::source::TEMPORARIES;

pub fn decide_segment(lent: &Lent<'_>, first: &[u8], i: &[u8], last: &[u8]) -> Result<(), Refusal>
    ensures { decided_refusal result ≡ refusal_of (passed_lists (given lent.now) unwritten (first.now ∷ i.now ∷ last.now ∷ [])) }
{
    let mut temporaries = [0u16; TEMPORARIES];
    decide_list(lent, &mut temporaries, first)?;
    decide_list(lent, &mut temporaries, i)?;
    decide_list(lent, &mut temporaries, last)
}

pub fn write_segment(lent: &Lent<'_>, first: &mut [u8], i: &mut [u8], last: &mut [u8])
    requires { (good_list first.old ≡ true) × (good_list i.old ≡ true) × (good_list last.old ≡ true) }
    ensures { WritesLists (given lent.now) unwritten (first.old ∷ i.old ∷ last.old ∷ []) (first.new ∷ i.new ∷ last.new ∷ []) }
{
    let mut temporaries = [0u16; TEMPORARIES];
    write_list(lent, &mut temporaries, first);
    write_list(lent, &mut temporaries, i);
    write_list(lent, &mut temporaries, last);
}
