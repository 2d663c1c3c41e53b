// The second walk of fixing, for the verifier's query code, by a plan.
ghost use Rattle.plan_walks.specs.Query.{QueryAsked, QueryGiven, QueryIs};

use frames::count::EXPRESSION_LIMIT;
use frames::tables::NODE_WORDS;
use kinds::refusal::Refused;
use lent_lists::records::good_lists;
use map_records::rest::CM_LIMIT;
use plan_tables::trees::fill_trees;
use planning::frames_plan::plan_frames;
use query_fixing::fix_query_code::fix_query_code;
use sections::map_section::{RECORD_LIMIT, WIDTHS, map_section};

// A plan that stands in tables with its positions.
fn query_planned(
    sections: &[u16; RECORD_LIMIT],
    dims: &[u16; RECORD_LIMIT],
    positions: &[u16; RECORD_LIMIT],
    records: usize,
    first: &mut [u8],
    i: &mut [u8],
    last: &mut [u8],
) -> Result<usize, Refused>
    requires { QueryAsked sections.now dims.now positions.now records }
    ensures { QueryGiven sections.now dims.now positions.now records first.old i.old last.old first.new i.new last.new result }
{
    let mut trees = [0u64; RECORD_LIMIT];
    let n = fill_trees(sections, dims, positions, records, &mut trees);
    fix_query_code(&trees[..n], first, i, last)?;
    Ok(0)
}

// Frames, a plan's record, and the three lists of a segment, whose cm become trees in place. On a refusal none of them has changed.
pub fn query(
    s: &[u8],
    plan: &[u8],
    first: &mut [u8],
    i: &mut [u8],
    last: &mut [u8],
) -> Result<usize, Refused>
    ensures { QueryIs s.now plan.now first.old i.old last.old first.new i.new last.new result }
{
    let well_formed = good_lists(first, i, last);
    let mut nodes = [0u64; NODE_WORDS];
    let mut expressions = [0u64; EXPRESSION_LIMIT];
    let mut sections = [0u16; RECORD_LIMIT];
    let mut dims = [0u16; RECORD_LIMIT];
    let mut cmdims = [0u16; CM_LIMIT];
    let k = plan_frames(
        s,
        plan,
        well_formed,
        &mut nodes,
        &mut expressions,
        &mut sections,
        &mut dims,
        &mut cmdims,
    )?;
    let n = k.records;
    let mut positions = [0u16; RECORD_LIMIT];
    let mut widths = [0u16; WIDTHS];
    // The records are the plan's own: none is refused.
    let _ = map_section(&sections[..n], &dims[..n], &mut positions[..n], &mut widths);
    query_planned(&sections, &dims, &positions, n, first, i, last)
}
