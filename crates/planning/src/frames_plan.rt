// The plan of a pool as frames. The caller vouches for nothing.
ghost use Rattle.planning.specs.Answers.{ReadAsked, ReadGiven, FramesAsked, FramesGiven};

use crate::answer::Plan;
use crate::pool_plan::plan_pool;
use frames::count::{Counts, EXPRESSION_LIMIT, NODE_LIMIT, REQUEST_LIMIT};
use frames::read::fill;
use frames::tables::NODE_WORDS;
use kinds::refusal::{Refusal, Refused};
use plans::check::is_plan;
use plans::count::fits;
use sections::map_section::RECORD_LIMIT;

// 1 and 9 of the plan's record, then 1 of what else an entry point takes.
fn plan_read(
    plan: &[u8],
    well_formed: bool,
    nodes: &[u64; NODE_WORDS],
    expressions: &[u64; EXPRESSION_LIMIT],
    c: Counts,
    sections: &mut [u16; RECORD_LIMIT],
    dims: &mut [u16; RECORD_LIMIT],
    cmdims: &mut [u16],
) -> Result<Plan, Refused>
    requires { ReadAsked c sections.old dims.old cmdims.old }
    ensures { ReadGiven plan.now well_formed nodes.now expressions.now c sections.new dims.new cmdims.new result }
{
    if !is_plan(plan) {
        return Err(Refusal::Malformed.into());
    }
    if !fits(plan) {
        return Err(Refusal::Full.into());
    }
    if !well_formed {
        return Err(Refusal::Malformed.into());
    }
    plan_pool(plan, nodes, expressions, c, sections, dims, cmdims)
}

// `well_formed` says that what else an entry point takes is no malformed record. All tables are the entry point's own: they hold the pool, and the
// records and dimensions of the plan where there is one.
pub fn plan_frames(
    s: &[u8],
    plan: &[u8],
    well_formed: bool,
    nodes: &mut [u64; NODE_WORDS],
    expressions: &mut [u64; EXPRESSION_LIMIT],
    sections: &mut [u16; RECORD_LIMIT],
    dims: &mut [u16; RECORD_LIMIT],
    cmdims: &mut [u16],
) -> Result<Plan, Refused>
    requires { FramesAsked nodes.old expressions.old sections.old dims.old cmdims.old }
    ensures { FramesGiven s.now plan.now well_formed nodes.new expressions.new sections.new dims.new cmdims.new result }
{
    let mut literals = [0u64; NODE_LIMIT];
    let mut requests = [0u64; REQUEST_LIMIT];
    let c = fill(s, nodes, &mut literals, expressions, &mut requests)?;
    plan_read(
        plan,
        well_formed,
        nodes,
        expressions,
        c,
        sections,
        dims,
        cmdims,
    )
}
