// Requests served over tables: decided first, then written.
ghost use Rattle.std.specs.Prelude.{◌≡◌, length, ◌≤◌};
ghost use Rattle.requests.specs.Generating.{has_room, FitAsked, FitGiven, GenerateAsked, GenerateGiven};

use crate::make::{make_counted, size_all};
use crate::plan::plan_all;
use frames::count::{EXPRESSION_LIMIT, REQUEST_LIMIT};
use frames::tables::NODE_WORDS;
use kinds::refusal::{Refusal, Refused};
use kinds::step::STEP_SIZE;
use starkinfo_codegen::order::JOB_LIMIT;

// A number of a temporary is below this.
pub const TEMPORARY_LIMIT: usize = 65536;

// The blocks of a plan have no more steps than two for each node. Where there is room for so many, none is counted.
const MOST_STEPS: usize = 8192;

// How many jobs and steps there are.
#[derive(Clone, Copy, Debug, PartialEq, Eq)]
pub struct Generation {
    pub jobs: usize,
    pub steps: usize,
}

// Is there room for so many steps more after `at`, and are there numbers for the counter after the `jobs` blocks that they make up?
fn has_room(list: &[u8], at: usize, t: usize, jobs: usize, steps: usize) -> bool
    requires { (at ≤ 65535) × (t ≤ 65535) × (jobs ≤ steps) × (steps ≤ 4194304) }
    ensures { result ≡ has_room (length list.now) at t jobs steps }
{
    if list.len() < STEP_SIZE * (at + steps) {
        return false;
    }
    t + (steps - jobs) < TEMPORARY_LIMIT
}

// Do the blocks of the first n jobs fit?
fn jobs_fit(
    nodes: &[u64; NODE_WORDS],
    expressions: &[u64; EXPRESSION_LIMIT],
    jobs: &[u64; JOB_LIMIT],
    list: &[u8],
    n: usize,
    at: usize,
    t: usize,
) -> bool
    requires { FitAsked nodes.now expressions.now jobs.now n at t }
    ensures { FitGiven nodes.now expressions.now jobs.now n at t (length list.now) result }
{
    if has_room(list, at, t, 0, MOST_STEPS) {
        return true;
    }
    let steps = size_all(nodes, expressions, jobs, n);
    has_room(list, at, t, n, steps)
}

// The first `count` requests in a pool of m expressions, after the steps and temporaries of a context with these marks. Where they are refused,
// the list has not changed; marks and jobs are the caller's own.
pub fn generate(
    nodes: &[u64; NODE_WORDS],
    expressions: &[u64; EXPRESSION_LIMIT],
    requests: &[u64; REQUEST_LIMIT],
    marks: &mut [u8; JOB_LIMIT],
    jobs: &mut [u64; JOB_LIMIT],
    list: &mut [u8],
    m: usize,
    count: usize,
    at: usize,
    t: usize,
) -> Result<Generation, Refused>
    requires { GenerateAsked nodes.now expressions.now requests.now marks.old jobs.old m count at t }
    ensures { GenerateGiven nodes.now expressions.now requests.now marks.old marks.new jobs.old jobs.new list.old list.new m count at t result }
{
    let n = plan_all(nodes, expressions, requests, marks, jobs, m, count)?;
    if !jobs_fit(nodes, expressions, jobs, list, n, at, t) {
        return Err(Refusal::Full.into());
    }
    let end = make_counted(nodes, expressions, jobs, list, n, at, t);
    Ok(Generation {
        jobs: n,
        steps: end - at,
    })
}
