// Which blocks a request makes, and in which order: `pil_code_gen` and `calculate_deps`.
ghost use Rattle.std.specs.Prelude.{◌≡◌, ◌<◌};
ghost use Rattle.starkinfo_codegen.specs.Ordering.{job_at, CodeAsked, CodeGiven, DepsAsked, DepsGiven, LeafDepsAsked, QuietGiven};

use crate::out::{ROWS, first_seen};
use crate::words::{
    NODE_LIMIT, count_of, first_child, id_of, kind_of, next_of, second_child, third_child,
};
use frames::count::EXPRESSION_LIMIT;
use frames::tables::{NODE_WORDS, expression_at};
use kinds::kind::Kind;

// A cell is an expression at a row; a job is a cell to be written, in the order of the jobs.
pub const JOB_LIMIT: usize = 1024;

// A refusal is this and the node to blame: a number and no `Result`, which would travel through memory, with some 60 bytes of stack more at every
// level of this recursion (measured on one of its shape).
pub const REFUSED: usize = JOB_LIMIT + 1;

const MARKED: u8 = 1;

// What the leaves of a tree ask for: the count of jobs, or a refusal. `out` is false only where no leaf reads a row that is not there.
#[derive(Clone, Copy)]
pub struct Deps {
    pub jobs: usize,
    pub out: bool,
}

// A job: its cell, and is it fused?
fn job(cell: usize, fused: bool) -> u64
    requires { cell < 1024 }
    ensures { result ≡ job_at cell fused }
{
    (cell * 2 + usize::from(fused)) as u64
}

// A cell without a mark: the cells that its tree asks for first, then its own job and mark. The answer is the count of jobs, or a refusal.
// An expression asks for others to no more than so many levels.
#[cycle(calculate_deps_leaf_deps_pil_code_gen)]
pub fn pil_code_gen(
    nodes: &[u64; NODE_WORDS],
    expressions: &[u64; EXPRESSION_LIMIT],
    marks: &mut [u8; JOB_LIMIT],
    jobs: &mut [u64; JOB_LIMIT],
    levels: usize,
    n: usize,
    e: usize,
    row: usize,
    fused: bool,
) -> usize
    requires { CodeAsked nodes.now expressions.now marks.old jobs.old levels n e row }
    ensures { CodeGiven nodes.now expressions.now marks.old marks.new jobs.old jobs.new levels n e row fused result }
{
    let cell = 2 * e + row;
    let mark = marks[cell];
    if MARKED <= mark {
        return n;
    }
    let root = expression_at(expressions, e).root;
    let deps = calculate_deps(nodes, expressions, marks, jobs, levels - 1, n, row, root);
    let after = deps.jobs;
    if JOB_LIMIT < after {
        return after;
    }
    if let Some(blamed) = first_seen(nodes, fused, row, root, deps.out) {
        return REFUSED + (blamed as usize);
    }
    marks[cell] = MARKED;
    jobs[after] = job(cell, fused);
    after + 1
}

// A leaf: an exp leaf asks for its cell.
#[cycle(calculate_deps_leaf_deps_pil_code_gen)]
fn leaf_deps(
    nodes: &[u64; NODE_WORDS],
    expressions: &[u64; EXPRESSION_LIMIT],
    marks: &mut [u8; JOB_LIMIT],
    jobs: &mut [u64; JOB_LIMIT],
    levels: usize,
    n: usize,
    row: usize,
    i: u16,
) -> Deps
    requires { LeafDepsAsked nodes.now expressions.now marks.old jobs.old levels n row i }
    ensures { DepsGiven nodes.now expressions.now marks.old marks.new jobs.old jobs.new levels n row i result.jobs × QuietGiven nodes.now expressions.now marks.old jobs.old levels n row i result }
{
    let there = row + (next_of(nodes, i) as usize);
    let kind = kind_of(nodes, i);
    if ROWS <= there {
        if kind == Kind::EXP {
            return Deps {
                jobs: REFUSED + (i as usize),
                out: true,
            };
        }
        return Deps { jobs: n, out: true };
    }
    if kind != Kind::EXP {
        return Deps {
            jobs: n,
            out: false,
        };
    }
    let id = id_of(nodes, i) as usize;
    let after = pil_code_gen(nodes, expressions, marks, jobs, levels, n, id, there, false);
    Deps {
        jobs: after,
        out: false,
    }
}

// The cells that a tree as it is written asks for: those of its exp leaves, from left to right, never fused.
#[cycle(calculate_deps_leaf_deps_pil_code_gen)]
pub fn calculate_deps(
    nodes: &[u64; NODE_WORDS],
    expressions: &[u64; EXPRESSION_LIMIT],
    marks: &mut [u8; JOB_LIMIT],
    jobs: &mut [u64; JOB_LIMIT],
    levels: usize,
    n: usize,
    row: usize,
    i: u16,
) -> Deps
    requires { DepsAsked nodes.now expressions.now marks.old jobs.old levels n row i }
    ensures { DepsGiven nodes.now expressions.now marks.old marks.new jobs.old jobs.new levels n row i result.jobs × QuietGiven nodes.now expressions.now marks.old jobs.old levels n row i result }
{
    if NODE_LIMIT <= i {
        return Deps {
            jobs: n,
            out: false,
        };
    }
    let count = count_of(nodes, i);
    if count == 0 {
        return leaf_deps(nodes, expressions, marks, jobs, levels, n, row, i);
    }
    let a = calculate_deps(
        nodes,
        expressions,
        marks,
        jobs,
        levels,
        n,
        row,
        first_child(nodes, i),
    );
    let first = a.jobs;
    if JOB_LIMIT < first {
        return a;
    }
    if count == 1 {
        return a;
    }
    let b = calculate_deps(
        nodes,
        expressions,
        marks,
        jobs,
        levels,
        first,
        row,
        second_child(nodes, i),
    );
    let second = b.jobs;
    if JOB_LIMIT < second {
        return b;
    }
    let out = a.out || b.out;
    if count == 2 {
        return Deps { jobs: second, out };
    }
    let c = calculate_deps(
        nodes,
        expressions,
        marks,
        jobs,
        levels,
        second,
        row,
        third_child(nodes, i),
    );
    Deps {
        jobs: c.jobs,
        out: out || c.out,
    }
}
