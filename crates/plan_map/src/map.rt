// `map`: the whole answer of a plan, as bytes.
ghost use Rattle.plan_map.specs.Whole.{PlannedAsked, PlannedGiven, MapIs};

use crate::parts::{HEAD_SIZE, put_cms, put_expressions, put_sections};
use frames::count::EXPRESSION_LIMIT;
use frames::tables::NODE_WORDS;
use kinds::refusal::{Refusal, Refused};
use map_records::rest::CM_LIMIT;
use plan_tables::columns::column_expressions;
use planning::answer::Plan;
use planning::frames_plan::plan_frames;
use plans::layout::cm_count;
use sections::map_section::RECORD_LIMIT;

// What each record, cm, temporary column and expression takes.
const RECORD_SIZE: usize = 6;

const CM_SIZE: usize = 6;

const COLUMN_SIZE: usize = 4;

const EXPRESSION_SIZE: usize = 2;

// A plan that stands in tables: whether there is room is decided before anything is written.
fn map_planned(
    plan: &[u8],
    sections: &[u16; RECORD_LIMIT],
    dims: &[u16; RECORD_LIMIT],
    cmdims: &[u16],
    k: Plan,
    out: &mut [u8],
) -> Result<usize, Refused>
    requires { PlannedAsked plan.now sections.now dims.now cmdims.now k }
    ensures { PlannedGiven plan.now sections.now dims.now cmdims.now k out.old out.new result }
{
    let n = k.records;
    let m = k.expressions;
    let cms = cm_count(plan);
    let mut columns = [0u16; RECORD_LIMIT];
    let count = column_expressions(plan, &mut columns);
    let size = HEAD_SIZE
        + RECORD_SIZE * n
        + CM_SIZE * cms
        + COLUMN_SIZE * count
        + EXPRESSION_SIZE * m;
    if out.len() < size {
        return Err(Refusal::Full.into());
    }
    let records = put_sections(plan, sections, dims, k, cms, count, out);
    let rest = put_cms(sections, cmdims, n, cms, out, records);
    Ok(put_expressions(plan, sections, n, m, &columns, count, out, rest))
}

// Frames, each behind its length, and a plan's record. The answer's bytes, which specs/Numbers.antt lays out, stand at the front of `out`, and it answers
// how many they are: 9 where there is no room for all of them. On a refusal nothing of `out` has changed.
pub fn map(s: &[u8], plan: &[u8], out: &mut [u8]) -> Result<usize, Refused>
    ensures { MapIs s.now plan.now out.old out.new result }
{
    let mut nodes = [0u64; NODE_WORDS];
    let mut expressions = [0u64; EXPRESSION_LIMIT];
    let mut sections = [0u16; RECORD_LIMIT];
    let mut dims = [0u16; RECORD_LIMIT];
    let mut cmdims = [0u16; CM_LIMIT];
    let k = plan_frames(
        s,
        plan,
        true,
        &mut nodes,
        &mut expressions,
        &mut sections,
        &mut dims,
        &mut cmdims,
    )?;
    map_planned(plan, &sections, &dims, &cmdims, k, out)
}
