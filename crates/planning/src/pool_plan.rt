// The plan of a pool that stands in tables: 2, 3, 4, 16, 11 and 12 in that order, or its records.
ghost use Rattle.pool.specs.Entries.{entries_in};
ghost use Rattle.planning.specs.Answers.{AdmittedAsked, AdmittedGiven, ShapedAsked, ShapedGiven, PoolAsked, PoolGiven};

use crate::answer::Plan;
use crate::records::some_none;
use crate::shape::plan_shape;
use frames::count::{Counts, EXPRESSION_LIMIT};
use frames::tables::NODE_WORDS;
use kinds::refusal::{Refusal, Refused};
use map_records::all::map_all;
use plans::agree::{bits_good, counts_agree};
use plans::layout::{NUMBER_SIZE, q2exp_at};
use pool::admit::ranked;
use sections::map_section::RECORD_LIMIT;

// An admitted pool: 16, 11 and 12.
fn plan_admitted(
    plan: &[u8],
    nodes: &[u64; NODE_WORDS],
    expressions: &[u64; EXPRESSION_LIMIT],
    table: &[u8],
    m: usize,
    sections: &mut [u16; RECORD_LIMIT],
    dims: &mut [u16; RECORD_LIMIT],
    cmdims: &mut [u16],
) -> Result<Plan, Refused>
    requires { AdmittedAsked plan.now nodes.now expressions.now (entries_in table.now) m sections.old dims.old cmdims.old }
    ensures { AdmittedGiven plan.now nodes.now expressions.now (entries_in table.now) m sections.old dims.old cmdims.old sections.new dims.new cmdims.new result }
{
    if !bits_good(plan) {
        return Err(Refusal::Bits.into());
    }
    if !counts_agree(plan) {
        return Err(Refusal::Counts.into());
    }
    let records = map_all(plan, nodes, expressions, table, sections, dims, cmdims);
    if some_none(dims, records.count) {
        return Err(Refusal::NoDimension.into());
    }
    Ok(Plan {
        expressions: m,
        records: records.count,
        q_dim: records.q_dim,
    })
}

// A pool with its shape, in which all that the plan names is there: 4 over exp and q leaves together.
fn plan_shaped(
    plan: &[u8],
    nodes: &[u64; NODE_WORDS],
    expressions: &[u64; EXPRESSION_LIMIT],
    table: &[u8],
    m: usize,
    sections: &mut [u16; RECORD_LIMIT],
    dims: &mut [u16; RECORD_LIMIT],
    cmdims: &mut [u16],
) -> Result<Plan, Refused>
    requires { ShapedAsked plan.now nodes.now expressions.now (entries_in table.now) m sections.old dims.old cmdims.old }
    ensures { ShapedGiven plan.now nodes.now expressions.now (entries_in table.now) m sections.old dims.old cmdims.old sections.new dims.new cmdims.new result }
{
    ranked(nodes, expressions, table, m)?;
    plan_admitted(plan, nodes, expressions, table, m, sections, dims, cmdims)
}

// The tables of records are the caller's, with every dimension of a cm 0. The expressions of q numbers are read where they stand, at the plan's end.
pub fn plan_pool(
    plan: &[u8],
    nodes: &[u64; NODE_WORDS],
    expressions: &[u64; EXPRESSION_LIMIT],
    c: Counts,
    sections: &mut [u16; RECORD_LIMIT],
    dims: &mut [u16; RECORD_LIMIT],
    cmdims: &mut [u16],
) -> Result<Plan, Refused>
    requires { PoolAsked plan.now c sections.old dims.old cmdims.old }
    ensures { PoolGiven plan.now nodes.now expressions.now c sections.new dims.new cmdims.new result }
{
    plan_shape(plan, nodes, expressions, c.nodes, c.expressions)?;
    plan_shaped(
        plan,
        nodes,
        expressions,
        &plan[NUMBER_SIZE * q2exp_at(plan)..],
        c.expressions,
        sections,
        dims,
        cmdims,
    )
}
