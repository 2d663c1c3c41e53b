// The walks over a segment's lists by a plan, for a program in another language.
ghost use Rattle.host.specs.Plans.{QueryNumbered, DimensionNumbered, FirstNumbered, WalkCounted};

use kinds::refusal::answer_number;
use plan_walks::dimension::{dimension, dimension_first};
use plan_walks::fix::fix;
use plan_walks::query::query;

// Fixes the references of a segment's three lists for the domain 0, "n", or 1, "2ns", and says the segment's counter after it.
pub fn enonkasse_fix(
    frames: &[u8],
    plan: &[u8],
    domain: u8,
    counter: &mut [usize; 1],
    first: &mut [u8],
    i: &mut [u8],
    last: &mut [u8],
) -> u8
    ensures { WalkCounted frames.now plan.now domain counter.old counter.new first.old i.old last.old first.new i.new last.new result }
{
    let fixed = fix(frames, plan, domain, counter[0], first, i, last);
    if let Ok(next) = fixed {
        counter[0] = next;
    }
    answer_number(&fixed)
}

// Makes trees of the cm of a segment's three lists, for the verifier's query code.
pub fn enonkasse_query(
    frames: &[u8],
    plan: &[u8],
    first: &mut [u8],
    i: &mut [u8],
    last: &mut [u8],
) -> u8
    ensures { QueryNumbered frames.now plan.now first.old i.old last.old first.new i.new last.new result }
{
    answer_number(&query(frames, plan, first, i, last))
}

// Gives every reference of a segment's three lists its dimension, the x kinds the one of this pass.
pub fn enonkasse_dimension(
    frames: &[u8],
    plan: &[u8],
    dim_x: u16,
    first: &mut [u8],
    i: &mut [u8],
    last: &mut [u8],
) -> u8
    ensures { DimensionNumbered frames.now plan.now dim_x first.old i.old last.old first.new i.new last.new result }
{
    answer_number(&dimension(frames, plan, dim_x, first, i, last))
}

// The same for a first list alone, where the x kinds have dimension 3.
pub fn enonkasse_dimension_first(frames: &[u8], plan: &[u8], first: &mut [u8]) -> u8
    ensures { FirstNumbered frames.now plan.now first.old first.new result }
{
    answer_number(&dimension_first(frames, plan, first))
}
