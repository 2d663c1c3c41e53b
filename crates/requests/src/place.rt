// The words of the blocks that jobs make: for each its cell, and how many steps it has.
ghost use Rattle.requests.specs.Placing.{PlaceAsked, PlaceGiven};

use crate::make::size_one;
use frames::count::EXPRESSION_LIMIT;
use frames::tables::NODE_WORDS;
use starkinfo_codegen::order::JOB_LIMIT;

// A block's cell is below this.
const CELLS: u64 = JOB_LIMIT as u64;

// Writes the words of the first n jobs from word number `from` on.
pub fn place_all(
    nodes: &[u64; NODE_WORDS],
    expressions: &[u64; EXPRESSION_LIMIT],
    jobs: &[u64; JOB_LIMIT],
    words: &mut [u64; JOB_LIMIT],
    n: usize,
    from: usize,
)
    requires { PlaceAsked nodes.now expressions.now jobs.now words.old n from }
    ensures { PlaceGiven nodes.now expressions.now jobs.now words.old words.new n from }
{
    for k in 0..n {
        let job = jobs[k];
        let steps = size_one(nodes, expressions, job);
        words[from + k] = job / 2 + CELLS * (steps as u64);
    }
}
