// Both lists from tables that hold the pool with the constraint: step3 is planned and measured, then step42ns with the frames made, then step3 written.
ghost use Rattle.codegen.specs.Building.{lists};
ghost use Rattle.constraint_build.specs.Both.{lent};
ghost use Rattle.constraint_build.specs.Making.{MakeAsked, MakeGiven};

use crate::answer::Made;
use crate::fit::fit_list;
use crate::second::make_second;
use constraint_lists::write::write_list;
use frames::count::{EXPRESSION_LIMIT, NODE_LIMIT};
use frames::tables::NODE_WORDS;
use kinds::refusal::Refused;
use starkinfo_codegen::order::JOB_LIMIT;

// Of `count` nodes and `m` expressions, of which the last is the constraint; `members` are its intermediates.
// The slices of a context are no struct: `fit_list` reads five of them at once, and of fields that are `&mut` the borrow checker covers no such call (docs/DECISIONS.md, Toolchain).
pub fn make_lists(
    nodes: &[u64; NODE_WORDS],
    literals: &[u64; NODE_LIMIT],
    expressions: &[u64; EXPRESSION_LIMIT],
    members: &[u64],
    context: &mut [u8],
    list: &mut [u8],
    first: &mut [u8],
    i: &mut [u8],
    last: &mut [u8],
    context_2ns: &mut [u8],
    list_2ns: &mut [u8],
    first_2ns: &mut [u8],
    i_2ns: &mut [u8],
    last_2ns: &mut [u8],
    count: usize,
    m: usize,
    out: &mut [u8],
) -> Result<Made, Refused>
    requires { MakeAsked nodes.now literals.now expressions.now members.now (lent context.old list.old (lists first.old i.old last.old)) (lent context_2ns.old list_2ns.old (lists first_2ns.old i_2ns.old last_2ns.old)) count m }
    ensures { MakeGiven nodes.now literals.now expressions.now members.now (lent context.old list.old (lists first.old i.old last.old)) (lent context.new list.new (lists first.new i.new last.new)) (lent context_2ns.old list_2ns.old (lists first_2ns.old i_2ns.old last_2ns.old)) (lent context_2ns.new list_2ns.new (lists first_2ns.new i_2ns.new last_2ns.new)) count m out.old out.new result }
{
    let mut marks = [0u8; JOB_LIMIT];
    let mut words = [0u64; JOB_LIMIT];
    let mut jobs = [0u64; JOB_LIMIT];
    let fit = fit_list(
        nodes,
        expressions,
        &[],
        members,
        context,
        list,
        first,
        i,
        last,
        &mut marks,
        &mut words,
        &mut jobs,
        m,
        false,
    )?;
    let made = make_second(
        nodes,
        literals,
        expressions,
        members,
        fit.room,
        context_2ns,
        list_2ns,
        first_2ns,
        i_2ns,
        last_2ns,
        count,
        m,
        out,
    )?;
    write_list(
        nodes,
        expressions,
        &jobs,
        &mut marks,
        &words,
        context,
        list,
        first,
        i,
        last,
        m,
        fit.n,
        false,
    );
    Ok(made)
}
