// The dimension of a source.
ghost use Rattle.std.specs.Prelude.{◌≡◌};
ghost use Rattle.step_dimensions.specs.StepDimensions.{through, source_dim, positive, written};
ghost use Rattle.step_dimensions.specs.Answers.{given, sourced_says};

use crate::lent::Lent;
use crate::rule::Rule;
use kinds::reference::Reference;
use kinds::refusal::Refusal;

// The ids of temporaries are 16 bits wide. A table of them holds 0 for one that no step has written: one of `Option<u16>` would take twice the stack.
pub const TEMPORARIES: usize = 65536;

pub fn positive_dim(dim: u16) -> Result<u16, Refusal>
    ensures { sourced_says result ≡ positive dim }
{
    if dim == 0 {
        return Err(Refusal::NoDimension);
    }
    Ok(dim)
}

pub fn written_dim(dim: u16) -> Result<u16, Refusal>
    ensures { sourced_says result ≡ written dim }
{
    if dim == 0 {
        return Err(Refusal::NoRule);
    }
    Ok(dim)
}

// The dimension of the record whose number stands at an id.
pub fn dim_through(record_dims: &[u16], numbers: &[u16], id: u16) -> Result<u16, Refusal>
    ensures { sourced_says result ≡ through record_dims.now numbers.now id }
{
    let number = *numbers.get(id as usize).ok_or(Refusal::NotThere)?;
    let dim = *record_dims.get(number as usize).ok_or(Refusal::NotThere)?;
    positive_dim(dim)
}

impl<'a> Lent<'a> {
    pub fn source_dim(&self, temporaries: &[u16; TEMPORARIES], r: Reference) -> Result<u16, Refusal>
        ensures { sourced_says result ≡ source_dim (given self.now) temporaries.now r }
    {
        match Rule::of(r.kind).ok_or(Refusal::NoRule)? {
            Rule::Temporary => written_dim(temporaries[r.id as usize]),
            Rule::Own => positive_dim(r.dim),
            Rule::Column => dim_through(self.record_dims, self.cm_2ns, r.id),
            Rule::Quotient => dim_through(self.record_dims, self.qs, r.id),
            Rule::One => Ok(1),
            Rule::Three => Ok(3),
            Rule::X => positive_dim(self.dim_x),
        }
    }
}
