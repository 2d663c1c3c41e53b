// `fix_prover_code` by a plan: the segment's three lists, for the domain "n" or "2ns".
ghost use Rattle.plan_walks.specs.Fix.{RulesGiven, PlannedAsked, FixAsked, FixGiven, FixIs};

use crate::cms::fill_cms;
use crate::walk::{DOMAIN_N, is_segment};
use fixing::fix_prover_code::fix_prover_code;
use frames::count::EXPRESSION_LIMIT;
use frames::tables::NODE_WORDS;
use kinds::refusal::Refused;
use map_records::rest::CM_LIMIT;
use plan_tables::columns::column_expressions;
use plan_tables::rules::fill_rules;
use planning::frames_plan::plan_frames;
use plans::layout::{NUMBER_SIZE, q2exp_at};
use sections::map_section::RECORD_LIMIT;

fn fill_plan_rules(
    in_n: bool,
    plan: &[u8],
    nodes: &[u64; NODE_WORDS],
    expressions: &[u64; EXPRESSION_LIMIT],
    cmdims: &[u16],
    rules: &mut [u64; EXPRESSION_LIMIT],
)
    requires { PlannedAsked plan.now nodes.now expressions.now cmdims.now rules.old }
    ensures { RulesGiven in_n plan.now nodes.now expressions.now cmdims.now rules.new }
{
    let mut columns = [0u16; RECORD_LIMIT];
    let count = column_expressions(plan, &mut columns);
    let at = NUMBER_SIZE * q2exp_at(plan);
    fill_rules(
        in_n,
        plan,
        nodes,
        expressions,
        &plan[at..],
        cmdims,
        &columns,
        count,
        rules,
    );
}

// A plan that stands in tables.
fn fix_planned(
    in_n: bool,
    plan: &[u8],
    nodes: &[u64; NODE_WORDS],
    expressions: &[u64; EXPRESSION_LIMIT],
    sections: &[u16; RECORD_LIMIT],
    cmdims: &[u16],
    records: usize,
    counter: usize,
    first: &mut [u8],
    i: &mut [u8],
    last: &mut [u8],
) -> Result<usize, Refused>
    requires { FixAsked plan.now nodes.now expressions.now sections.now cmdims.now records }
    ensures { FixGiven in_n plan.now nodes.now expressions.now sections.now cmdims.now records counter first.old i.old last.old first.new i.new last.new result }
{
    let mut rules = [0u64; EXPRESSION_LIMIT];
    fill_plan_rules(in_n, plan, nodes, expressions, cmdims, &mut rules);
    let mut cms = [0u16; RECORD_LIMIT];
    let n = fill_cms(in_n, sections, records, &mut cms);
    Ok(fix_prover_code(&rules, &cms[..n], counter, first, i, last)?)
}

// Frames, each behind its length, a plan's record, and a segment: its counter and its three lists, whose references are fixed in place. On a refusal none of
// them has changed.
pub fn fix(
    s: &[u8],
    plan: &[u8],
    domain: u8,
    counter: usize,
    first: &mut [u8],
    i: &mut [u8],
    last: &mut [u8],
) -> Result<usize, Refused>
    ensures { FixIs s.now plan.now domain counter first.old i.old last.old first.new i.new last.new result }
{
    let well_formed = is_segment(domain, counter, first, i, last);
    let in_n = domain == DOMAIN_N;
    let mut nodes = [0u64; NODE_WORDS];
    let mut expressions = [0u64; EXPRESSION_LIMIT];
    let mut sections = [0u16; RECORD_LIMIT];
    let mut dims = [0u16; RECORD_LIMIT];
    let mut cmdims = [0u16; CM_LIMIT];
    let k = plan_frames(
        s,
        plan,
        well_formed,
        &mut nodes,
        &mut expressions,
        &mut sections,
        &mut dims,
        &mut cmdims,
    )?;
    fix_planned(
        in_n,
        plan,
        &nodes,
        &expressions,
        &sections,
        &cmdims,
        k.records,
        counter,
        first,
        i,
        last,
    )
}
