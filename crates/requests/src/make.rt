// The blocks of jobs: their steps counted, then written.
ghost use Rattle.std.specs.Prelude.{length, ◌<◌};
ghost use Rattle.requests.specs.Making.{JobSays, OneSizeAsked, OneSizeGiven, OneMakeAsked, OneMakeGiven, SizeAsked, SizeGiven, MakeAsked, MakeCounted, MakeGiven};

use frames::count::EXPRESSION_LIMIT;
use frames::tables::{NODE_WORDS, expression_at};
use starkinfo_codegen::block::block;
use starkinfo_codegen::count::block_size;
use starkinfo_codegen::order::JOB_LIMIT;

// What a word of the table of jobs says.
#[derive(Drop)]
pub struct Job {
    pub expression: u16,
    pub row: u8,
    pub fused: bool,
}

fn job_of(word: u64) -> Job
    requires { word < 2048 }
    ensures { JobSays word result }
{
    Job {
        expression: (word / 4) as u16,
        row: (word / 2 % 2) as u8,
        fused: word % 2 == 1,
    }
}

pub fn size_one(
    nodes: &[u64; NODE_WORDS],
    expressions: &[u64; EXPRESSION_LIMIT],
    word: u64,
) -> usize
    requires { OneSizeAsked nodes.now expressions.now word }
    ensures { OneSizeGiven nodes.now expressions.now word result }
{
    let job = job_of(word);
    let root = expression_at(expressions, job.expression as usize).root;
    block_size(nodes, job.fused, root)
}

fn make_one(
    nodes: &[u64; NODE_WORDS],
    expressions: &[u64; EXPRESSION_LIMIT],
    list: &mut [u8],
    word: u64,
    at: usize,
    t: usize,
) -> usize
    requires { OneMakeAsked nodes.now expressions.now word at t (length list.old) }
    ensures { OneMakeGiven nodes.now expressions.now word at t list.old list.new result }
{
    let job = job_of(word);
    let root = expression_at(expressions, job.expression as usize).root;
    block(nodes, list, job.row, job.fused, at, t, root, job.expression)
}

// How many steps the blocks of the first n jobs have.
pub fn size_all(
    nodes: &[u64; NODE_WORDS],
    expressions: &[u64; EXPRESSION_LIMIT],
    jobs: &[u64; JOB_LIMIT],
    n: usize,
) -> usize
    requires { SizeAsked nodes.now expressions.now jobs.now n }
    ensures { SizeGiven nodes.now expressions.now jobs.now n result }
{
    let mut steps: usize = 0;
    for k in 0..n {
        steps += size_one(nodes, expressions, jobs[k]);
    }
    steps
}

// Writes the blocks of the first n jobs from step number `at` and temporary `t` on, and answers the number after their last step. Each block takes
// a temporary fewer than it has steps.
pub fn make_counted(
    nodes: &[u64; NODE_WORDS],
    expressions: &[u64; EXPRESSION_LIMIT],
    jobs: &[u64; JOB_LIMIT],
    list: &mut [u8],
    n: usize,
    mut at: usize,
    mut t: usize,
) -> usize
    requires { MakeAsked nodes.now expressions.now jobs.now n at t (length list.old) }
    ensures { MakeCounted nodes.now expressions.now jobs.now n at t list.old list.new result }
{
    for k in 0..n {
        let steps = make_one(nodes, expressions, list, jobs[k], at, t);
        at += steps;
        t += steps - 1;
    }
    at
}

// The same, without an answer.
pub fn make_all(
    nodes: &[u64; NODE_WORDS],
    expressions: &[u64; EXPRESSION_LIMIT],
    jobs: &[u64; JOB_LIMIT],
    list: &mut [u8],
    n: usize,
    at: usize,
    t: usize,
)
    requires { MakeAsked nodes.now expressions.now jobs.now n at t (length list.old) }
    ensures { MakeGiven nodes.now expressions.now jobs.now n at t list.old list.new }
{
    make_counted(nodes, expressions, jobs, list, n, at, t);
}
