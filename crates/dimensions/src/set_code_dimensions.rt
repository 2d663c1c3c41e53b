// `set_code_dimensions` and `set_code_dimensions_first`. The lists are the caller's word; nothing of them changes where something is refused.
ghost use Rattle.std.specs.Prelude.{[], ◌∷◌};
ghost use Rattle.step_dimensions.specs.Answers.{given, lent};
ghost use Rattle.dimensions.specs.Answers.{DimensionedIs, first_dim_x};

use crate::segment::{decide_segment, write_segment};
use kinds::refusal::Refusal;
use lists::records::good_list;
use step_dimensions::lent::Lent;

// The x dimension of a first list alone.
const FIRST_DIM_X: u16 = 3;

pub fn set_code_dimensions(
    lent: &Lent<'_>,
    first: &mut [u8],
    i: &mut [u8],
    last: &mut [u8],
) -> Result<(), Refusal>
    ensures { DimensionedIs (given lent.now) (first.old ∷ i.old ∷ last.old ∷ []) (first.new ∷ i.new ∷ last.new ∷ []) result }
{
    if !good_list(first) || !good_list(i) || !good_list(last) {
        return Err(Refusal::Malformed);
    }
    decide_segment(lent, first, i, last)?;
    write_segment(lent, first, i, last);
    Ok(())
}

// A first list alone is a segment whose other lists are empty.
pub fn set_code_dimensions_first(
    record_dims: &[u16],
    cm_2ns: &[u16],
    qs: &[u16],
    first: &mut [u8],
) -> Result<(), Refusal>
    ensures { DimensionedIs (lent record_dims.now cm_2ns.now qs.now first_dim_x) (first.old ∷ []) (first.new ∷ []) result }
{
    let lent = Lent {
        record_dims,
        cm_2ns,
        qs,
        dim_x: FIRST_DIM_X,
    };
    let mut i = [0u8; 0];
    let mut last = [0u8; 0];
    set_code_dimensions(&lent, first, &mut i, &mut last)
}
