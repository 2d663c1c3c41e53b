// The dimension of a step's destination, from the bytes of its record that tell it. Where it answers None, crate::step says why.
ghost use Rattle.std.specs.Prelude.{◌≡◌, ◌+◌, ◌≤◌, length};
ghost use Rattle.kinds.specs.References.{reference_size, ref_at};
ghost use Rattle.kinds.specs.Steps.{step_size, step_at};
ghost use Rattle.step_dimensions.specs.StepDimensions.{source_dim};
ghost use Rattle.step_dimensions.specs.Answers.{given};
ghost use Rattle.step_dimensions.specs.Known.{known, noted_at, MostIs, StepDimIs};

use crate::lent::Lent;
use crate::rule::{Rule, is_destination};
use crate::source::{TEMPORARIES, dim_through, positive_dim, written_dim};
use kinds::big_endian::u16_at;
use kinds::kind::Kind;
use kinds::reference::REFERENCE_SIZE;
use kinds::step_op::StepOp;
use lists::places::{COUNT, DEST, DIM, ID, S0};

impl<'a> Lent<'a> {
    // That of a source, where it has one.
    pub fn known_dim(&self, temporaries: &[u16; TEMPORARIES], list: &[u8], at: usize) -> Option<u16>
        requires { at + reference_size ≤ length list.now }
        ensures { result ≡ known (source_dim (given self.now) temporaries.now (ref_at list.now at)) }
    {
        match Rule::of(list[at])? {
            Rule::Temporary => {
                let id = u16_at(list, at + ID) as usize;
                written_dim(temporaries[id]).ok()
            }
            Rule::Own => positive_dim(u16_at(list, at + DIM)).ok(),
            Rule::Column => {
                dim_through(self.record_dims, self.cm_2ns, u16_at(list, at + ID)).ok()
            }
            Rule::Quotient => { dim_through(self.record_dims, self.qs, u16_at(list, at + ID)).ok() }
            Rule::One => Some(1),
            Rule::Three => Some(3),
            Rule::X => positive_dim(self.dim_x).ok(),
        }
    }

    // The largest of the sources that a step needs, where each has one.
    fn sources_dim(
        &self,
        temporaries: &[u16; TEMPORARIES],
        needed: u8,
        list: &[u8],
        at: usize,
    ) -> Option<u16>
        requires { (at + step_size ≤ length list.now) × (needed ≤ 3) }
        ensures { MostIs (given self.now) temporaries.now list.now at needed result }
    {
        let mut most: u16 = 0;
        for place in 0..needed as usize {
            let source = at + S0 + REFERENCE_SIZE * place;
            most = most.max(self.known_dim(temporaries, list, source)?);
        }
        Some(most)
    }

    pub fn step_dim(&self, temporaries: &[u16; TEMPORARIES], list: &[u8], at: usize) -> Option<u16>
        requires { at + step_size ≤ length list.now }
        ensures { StepDimIs (given self.now) temporaries.now (step_at list.now at) result }
    {
        let needed = StepOp::sources_needed(list[at]);
        if needed == 0 || list[at + COUNT] < needed || !is_destination(list[at + DEST]) {
            return None;
        }
        self.sources_dim(temporaries, needed, list, at)
    }
}

// A temporary has the dimension of the last step that wrote it.
pub fn note_dim(temporaries: &mut [u16; TEMPORARIES], list: &[u8], at: usize, dim: u16)
    requires { at + reference_size ≤ length list.now }
    ensures { temporaries.new ≡ noted_at temporaries.old (ref_at list.now at) dim }
{
    if list[at] == Kind::TMP {
        let id = u16_at(list, at + ID) as usize;
        temporaries[id] = dim;
    }
}
