// One list planned and measured: only the caller's own tables are written.
ghost use Rattle.codegen.specs.Building.{lists};
ghost use Rattle.constraint_build.specs.Both.{lent};
ghost use Rattle.constraint_build.specs.Committing.{FitAsked, FitGiven};

use crate::answer::Fit;
use constraint_lists::measure::measure;
use constraint_lists::plan::plan_list;
use frames::count::EXPRESSION_LIMIT;
use frames::tables::NODE_WORDS;
use kinds::refusal::Refused;
use starkinfo_codegen::order::JOB_LIMIT;

// Those of `marked` are marked, those of `asked` asked for. Where there is room, leaves the marks, jobs and words with which the list is written.
pub fn fit_list(
    nodes: &[u64; NODE_WORDS],
    expressions: &[u64; EXPRESSION_LIMIT],
    marked: &[u64],
    asked: &[u64],
    context: &[u8],
    list: &[u8],
    first: &[u8],
    i: &[u8],
    last: &[u8],
    marks: &mut [u8; JOB_LIMIT],
    words: &mut [u64; JOB_LIMIT],
    jobs: &mut [u64; JOB_LIMIT],
    m: usize,
    closes: bool,
) -> Result<Fit, Refused>
    requires { FitAsked nodes.now expressions.now marked.now asked.now (lent context.now list.now (lists first.now i.now last.now)) marks.old words.old jobs.old m }
    ensures { FitGiven nodes.now expressions.now marked.now asked.now (lent context.now list.now (lists first.now i.now last.now)) marks.new words.new jobs.new m closes result }
{
    let n = plan_list(
        nodes,
        expressions,
        marked,
        asked,
        context,
        marks,
        words,
        jobs,
        m,
    )?;
    let room = measure(
        nodes,
        expressions,
        jobs,
        words,
        context,
        list,
        first,
        i,
        last,
        m,
        n,
        closes,
    );
    Ok(Fit { n, room })
}
