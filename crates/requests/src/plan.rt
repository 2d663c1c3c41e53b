// Which blocks requests ask for, in their order: refusals 3 and 5 of requests.
ghost use Rattle.requests.specs.Planning.{OneAsked, OneGiven, PlanAsked, PlanGiven};

use frames::count::{EXPRESSION_LIMIT, REQUEST_LIMIT};
use frames::tables::{NODE_WORDS, request_at};
use kinds::refusal::{Refusal, Refused};
use starkinfo_codegen::order::{JOB_LIMIT, REFUSED, pil_code_gen};

// Request `k` after n jobs, in a pool of m expressions: how many jobs there are then.
pub fn plan_request(
    nodes: &[u64; NODE_WORDS],
    expressions: &[u64; EXPRESSION_LIMIT],
    requests: &[u64; REQUEST_LIMIT],
    marks: &mut [u8; JOB_LIMIT],
    jobs: &mut [u64; JOB_LIMIT],
    m: usize,
    n: usize,
    k: usize,
) -> Result<usize, Refused>
    requires { OneAsked nodes.now expressions.now requests.now marks.old jobs.old m n k }
    ensures { OneGiven nodes.now expressions.now requests.now marks.old marks.new jobs.old jobs.new m n k result }
{
    let q = request_at(requests, k);
    let e = q.expression as usize;
    if m <= e {
        return Err(Refusal::NotThere.into());
    }
    let row = q.prime as usize;
    let fused = q.muladd == 1;
    let after = pil_code_gen(nodes, expressions, marks, jobs, m, n, e, row, fused);
    if JOB_LIMIT < after {
        return Err(Refused::at(Refusal::DoublePrime, after - REFUSED));
    }
    Ok(after)
}

// The first `count` requests, up to the first that is refused.
pub fn plan_all(
    nodes: &[u64; NODE_WORDS],
    expressions: &[u64; EXPRESSION_LIMIT],
    requests: &[u64; REQUEST_LIMIT],
    marks: &mut [u8; JOB_LIMIT],
    jobs: &mut [u64; JOB_LIMIT],
    m: usize,
    count: usize,
) -> Result<usize, Refused>
    requires { PlanAsked nodes.now expressions.now requests.now marks.old jobs.old m count }
    ensures { PlanGiven nodes.now expressions.now requests.now marks.old marks.new jobs.old jobs.new m count result }
{
    let mut n: usize = 0;
    for k in 0..count {
        n = plan_request(nodes, expressions, requests, marks, jobs, m, n, k)?;
    }
    Ok(n)
}
