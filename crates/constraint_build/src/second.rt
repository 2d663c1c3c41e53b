// step42ns and the frames of the pool, where there is room for step3 too.
ghost use Rattle.codegen.specs.Building.{lists};
ghost use Rattle.constraint_build.specs.Both.{lent};
ghost use Rattle.constraint_build.specs.Committing.{SecondAsks, SecondGiven};

use crate::answer::{Made, join};
use crate::fit::fit_list;
use codegen::build::Sizes;
use constraint_lists::write::write_list;
use frames::count::{EXPRESSION_LIMIT, NODE_LIMIT};
use frames::tables::NODE_WORDS;
use kinds::refusal::{Refusal, Refused};
use pool_frames::pool::write_pool;
use starkinfo_codegen::order::JOB_LIMIT;

// `one` is the steps of step3, where there is room for it.
pub fn make_second(
    nodes: &[u64; NODE_WORDS],
    literals: &[u64; NODE_LIMIT],
    expressions: &[u64; EXPRESSION_LIMIT],
    members: &[u64],
    one: Option<Sizes>,
    context: &mut [u8],
    list: &mut [u8],
    first: &mut [u8],
    i: &mut [u8],
    last: &mut [u8],
    count: usize,
    m: usize,
    out: &mut [u8],
) -> Result<Made, Refused>
    requires { SecondAsks nodes.now literals.now expressions.now members.now (lent context.old list.old (lists first.old i.old last.old)) count m }
    ensures { SecondGiven nodes.now literals.now expressions.now members.now one (lent context.old list.old (lists first.old i.old last.old)) (lent context.new list.new (lists first.new i.new last.new)) count m out.old out.new result }
{
    let mut marks = [0u8; JOB_LIMIT];
    let mut words = [0u64; JOB_LIMIT];
    let mut jobs = [0u64; JOB_LIMIT];
    let fit = fit_list(
        nodes,
        expressions,
        members,
        &[(m - 1) as u64],
        context,
        list,
        first,
        i,
        last,
        &mut marks,
        &mut words,
        &mut jobs,
        m,
        true,
    )?;
    let sizes = join(one, fit.room).ok_or(Refusal::Full)?;
    let bytes = write_pool(nodes, literals, expressions, count, m, out).ok_or(Refusal::Full)?;
    write_list(
        nodes,
        expressions,
        &jobs,
        &mut marks,
        &words,
        context,
        list,
        first,
        i,
        last,
        m,
        fit.n,
        true,
    );
    Ok(Made { sizes, bytes })
}
