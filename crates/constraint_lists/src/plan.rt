// Which blocks a list asks for: refusal 5. Only the caller's own tables are written.
ghost use Rattle.constraint_lists.specs.Planned.{FillAsks, FillGives, ListPlanAsked, ListPlanGiven};

use constraint_pieces::mark::mark_members;
use context::load::{load_blocks, load_marks};
use frames::count::{EXPRESSION_LIMIT, REQUEST_LIMIT};
use frames::rest::Request;
use frames::tables::{NODE_WORDS, put_request};
use kinds::refusal::Refused;
use requests::plan::plan_all;
use starkinfo_codegen::order::JOB_LIMIT;

const THIS_ROW: u8 = 0;

const UNFUSED: u8 = 0;

// Each at this row, not fused.
fn fill_requests(asked: &[u64], requests: &mut [u64; REQUEST_LIMIT])
    requires { FillAsks asked.now requests.old }
    ensures { FillGives asked.now requests.new }
{
    for k in 0..asked.len() {
        let request = Request {
            expression: asked[k] as u16,
            prime: THIS_ROW,
            muladd: UNFUSED,
        };
        put_request(requests, k, request);
    }
}

// Of a pool of m expressions on a context: those of `marked` are marked, then those of `asked` asked for. For step3 nothing is marked and the members are asked for; for
// step42ns the members are marked and the constraint is asked for. Leaves the marks after it, the words of the context's blocks, and the jobs.
pub fn plan_list(
    nodes: &[u64; NODE_WORDS],
    expressions: &[u64; EXPRESSION_LIMIT],
    marked: &[u64],
    asked: &[u64],
    context: &[u8],
    marks: &mut [u8; JOB_LIMIT],
    words: &mut [u64; JOB_LIMIT],
    jobs: &mut [u64; JOB_LIMIT],
    m: usize,
) -> Result<usize, Refused>
    requires { ListPlanAsked nodes.now expressions.now marked.now asked.now context.now marks.old words.old jobs.old m }
    ensures { ListPlanGiven nodes.now expressions.now marked.now asked.now context.now marks.new words.new jobs.new m result }
{
    let mut requests = [0u64; REQUEST_LIMIT];
    fill_requests(asked, &mut requests);
    load_marks(context, marks);
    load_blocks(context, words);
    mark_members(marks, marked);
    plan_all(nodes, expressions, &requests, marks, jobs, m, asked.len())
}
