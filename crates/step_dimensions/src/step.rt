// A step with its dimensions: each source that it needs gets its own, the destination the largest.
ghost use Rattle.std.specs.Prelude.{◌≡◌};
ghost use Rattle.step_dimensions.specs.StepDimensions.{sized, step_with, noted};
ghost use Rattle.step_dimensions.specs.Steps.{slot_dim, largest_of, built_step};
ghost use Rattle.step_dimensions.specs.Answers.{given, sourced_says, stepped_says};

use crate::lent::Lent;
use crate::rule::is_destination;
use crate::source::TEMPORARIES;
use kinds::kind::Kind;
use kinds::reference::Reference;
use kinds::refusal::Refusal;
use kinds::step::Step;
use kinds::step_op::StepOp;

fn largest(needed: u8, a: u16, b: u16, c: u16) -> u16
    ensures { result ≡ largest_of needed a b c }
{
    match needed {
        1 => a,
        2 => a.max(b),
        _ => a.max(b.max(c)),
    }
}

fn sized_reference(r: Reference, dim: u16) -> Reference
    ensures { result ≡ sized r dim }
{
    Reference { dim, ..r }
}

fn sized_step(needed: u8, s: Step, a: u16, b: u16, c: u16) -> Step
    ensures { result ≡ built_step needed s a b c }
{
    Step {
        dest: sized_reference(s.dest, largest(needed, a, b, c)),
        s0: sized_reference(s.s0, a),
        s1: sized_reference(s.s1, b),
        s2: sized_reference(s.s2, c),
        ..s
    }
}

impl<'a> Lent<'a> {
    // The dimension of a source by its place, and what the reference brings where the step does not need it. One that is needed and not there has no rule.
    fn needed_dim(
        &self,
        temporaries: &[u16; TEMPORARIES],
        needed: u8,
        count: u8,
        place: u8,
        r: Reference,
    ) -> Result<u16, Refusal>
        ensures { sourced_says result ≡ slot_dim (given self.now) temporaries.now needed count place r }
    {
        if needed <= place {
            return Ok(r.dim);
        }
        if count <= place {
            return Err(Refusal::NoRule);
        }
        self.source_dim(temporaries, r)
    }

    pub fn step_with(&self, temporaries: &[u16; TEMPORARIES], s: Step) -> Result<Step, Refusal>
        ensures { stepped_says result ≡ step_with (given self.now) temporaries.now s }
    {
        let needed = StepOp::sources_needed(s.op);
        if needed == 0 {
            return Err(Refusal::NoRule);
        }
        let a = self.needed_dim(temporaries, needed, s.count, 0, s.s0)?;
        let b = self.needed_dim(temporaries, needed, s.count, 1, s.s1)?;
        let c = self.needed_dim(temporaries, needed, s.count, 2, s.s2)?;
        if !is_destination(s.dest.kind) {
            return Err(Refusal::NoRule);
        }
        Ok(sized_step(needed, s, a, b, c))
    }
}

// A temporary has the dimension of the last step that wrote it.
pub fn note_step(temporaries: &mut [u16; TEMPORARIES], s: Step)
    ensures { temporaries.new ≡ noted temporaries.old s }
{
    let dest = s.dest;
    if dest.kind == Kind::TMP {
        temporaries[dest.id as usize] = dest.dim;
    }
}
