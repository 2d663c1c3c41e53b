// Requests of which the last asks for a result. Whether it may have one hangs on the mark of its cell before its turn.
ghost use Rattle.std.specs.Prelude.{◌≡◌, ◌<◌};
ghost use Rattle.frames.specs.Order.{expression_limit};
ghost use Rattle.starkinfo_codegen.specs.Ordering.{marks_of};
ghost use Rattle.requests.specs.Planning.{OneAsked};
ghost use Rattle.requests.specs.Last.{FinalGiven, LastAsked, LastGiven};

use crate::plan::{plan_all, plan_request};
use frames::count::{EXPRESSION_LIMIT, REQUEST_LIMIT};
use frames::tables::{NODE_WORDS, request_at};
use kinds::refusal::{Refusal, Refused};
use starkinfo_codegen::order::JOB_LIMIT;
use starkinfo_codegen::out::ROWS;

// How many jobs there are, and was the last request's cell marked before its turn?
#[derive(Clone, Copy, Debug, PartialEq, Eq)]
pub struct LastPlan {
    pub jobs: usize,
    pub marked: bool,
}

fn is_marked(marks: &[u8; JOB_LIMIT], e: usize, row: usize) -> bool
    requires { (e < expression_limit) × (row < 2) }
    ensures { result ≡ marks_of marks.now e row }
{
    0 < marks[ROWS * e + row]
}

// Request `k` after n jobs.
fn plan_final(
    nodes: &[u64; NODE_WORDS],
    expressions: &[u64; EXPRESSION_LIMIT],
    requests: &[u64; REQUEST_LIMIT],
    marks: &mut [u8; JOB_LIMIT],
    jobs: &mut [u64; JOB_LIMIT],
    m: usize,
    n: usize,
    k: usize,
) -> Result<LastPlan, Refused>
    requires { OneAsked nodes.now expressions.now requests.now marks.old jobs.old m n k }
    ensures { FinalGiven nodes.now expressions.now requests.now marks.old marks.new jobs.old jobs.new m n k result }
{
    let q = request_at(requests, k);
    let e = q.expression as usize;
    if m <= e {
        return Err(Refusal::NotThere.into());
    }
    let marked = is_marked(marks, e, q.prime as usize);
    let after = plan_request(nodes, expressions, requests, marks, jobs, m, n, k)?;
    Ok(LastPlan {
        jobs: after,
        marked,
    })
}

// Requests up to number `k`, which is the last.
pub fn plan_last(
    nodes: &[u64; NODE_WORDS],
    expressions: &[u64; EXPRESSION_LIMIT],
    requests: &[u64; REQUEST_LIMIT],
    marks: &mut [u8; JOB_LIMIT],
    jobs: &mut [u64; JOB_LIMIT],
    m: usize,
    k: usize,
) -> Result<LastPlan, Refused>
    requires { LastAsked nodes.now expressions.now requests.now marks.old jobs.old m k }
    ensures { LastGiven nodes.now expressions.now requests.now marks.old marks.new jobs.old jobs.new m k result }
{
    let n = plan_all(nodes, expressions, requests, marks, jobs, m, k)?;
    plan_final(nodes, expressions, requests, marks, jobs, m, n, k)
}
