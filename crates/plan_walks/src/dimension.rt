// `set_code_dimensions` and `set_code_dimensions_first` by a plan.
ghost use Rattle.std.specs.Prelude.{[], ◌∷◌};
ghost use Rattle.dimensions.specs.Answers.{first_dim_x};
ghost use Rattle.plan_walks.specs.Dimension.{DimensionAsked, DimensionGiven, DimensionIs, FirstIs};

use crate::cms::fill_cms;
use dimensions::set_code_dimensions::{set_code_dimensions, set_code_dimensions_first};
use frames::count::EXPRESSION_LIMIT;
use frames::tables::NODE_WORDS;
use kinds::refusal::Refused;
use lent_lists::records::good_lists;
use lists::records::good_list;
use map_records::rest::CM_LIMIT;
use plan_tables::qs::fill_qs;
use planning::frames_plan::plan_frames;
use plans::count::NUMBER_LIMIT;
use sections::map_section::RECORD_LIMIT;
use step_dimensions::lent::Lent;

// A plan that stands in tables.
fn dimension_planned(
    plan: &[u8],
    sections: &[u16; RECORD_LIMIT],
    dims: &[u16],
    records: usize,
    dim_x: u16,
    first: &mut [u8],
    i: &mut [u8],
    last: &mut [u8],
) -> Result<usize, Refused>
    requires { DimensionAsked plan.now sections.now dims.now records }
    ensures { DimensionGiven plan.now sections.now dims.now records dim_x (first.old ∷ i.old ∷ last.old ∷ []) (first.new ∷ i.new ∷ last.new ∷ []) result }
{
    let mut cms = [0u16; RECORD_LIMIT];
    let n = fill_cms(false, sections, records, &mut cms);
    let mut numbers = [0u16; NUMBER_LIMIT];
    let q = fill_qs(plan, &mut numbers);
    let lent = Lent {
        record_dims: dims,
        cm_2ns: &cms[..n],
        qs: &numbers[..q],
        dim_x,
    };
    set_code_dimensions(&lent, first, i, last)?;
    Ok(0)
}

fn first_planned(
    plan: &[u8],
    sections: &[u16; RECORD_LIMIT],
    dims: &[u16],
    records: usize,
    first: &mut [u8],
) -> Result<usize, Refused>
    requires { DimensionAsked plan.now sections.now dims.now records }
    ensures { DimensionGiven plan.now sections.now dims.now records first_dim_x (first.old ∷ []) (first.new ∷ []) result }
{
    let mut cms = [0u16; RECORD_LIMIT];
    let n = fill_cms(false, sections, records, &mut cms);
    let mut numbers = [0u16; NUMBER_LIMIT];
    let q = fill_qs(plan, &mut numbers);
    set_code_dimensions_first(dims, &cms[..n], &numbers[..q], first)?;
    Ok(0)
}

// Frames, a plan's record, the pass's own x dimension, and the three lists of a segment, which get their dimensions in place. On a refusal none of them has
// changed.
pub fn dimension(
    s: &[u8],
    plan: &[u8],
    dim_x: u16,
    first: &mut [u8],
    i: &mut [u8],
    last: &mut [u8],
) -> Result<usize, Refused>
    ensures { DimensionIs s.now plan.now dim_x first.old i.old last.old first.new i.new last.new result }
{
    let well_formed = good_lists(first, i, last);
    let mut nodes = [0u64; NODE_WORDS];
    let mut expressions = [0u64; EXPRESSION_LIMIT];
    let mut sections = [0u16; RECORD_LIMIT];
    let mut dims = [0u16; RECORD_LIMIT];
    let mut cmdims = [0u16; CM_LIMIT];
    let k = plan_frames(
        s,
        plan,
        well_formed,
        &mut nodes,
        &mut expressions,
        &mut sections,
        &mut dims,
        &mut cmdims,
    )?;
    let n = k.records;
    dimension_planned(plan, &sections, &dims[..n], n, dim_x, first, i, last)
}

// The same for a first list alone, whose x dimension is 3.
pub fn dimension_first(s: &[u8], plan: &[u8], first: &mut [u8]) -> Result<usize, Refused>
    ensures { FirstIs s.now plan.now first.old first.new result }
{
    let well_formed = good_list(first);
    let mut nodes = [0u64; NODE_WORDS];
    let mut expressions = [0u64; EXPRESSION_LIMIT];
    let mut sections = [0u16; RECORD_LIMIT];
    let mut dims = [0u16; RECORD_LIMIT];
    let mut cmdims = [0u16; CM_LIMIT];
    let k = plan_frames(
        s,
        plan,
        well_formed,
        &mut nodes,
        &mut expressions,
        &mut sections,
        &mut dims,
        &mut cmdims,
    )?;
    let n = k.records;
    first_planned(plan, &sections, &dims[..n], n, first)
}
