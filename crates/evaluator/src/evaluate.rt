// The evaluator's entry point: a pool as frames, a list, a modulus and the given values. The caller vouches for nothing, and on a refusal nothing lent has
// changed.
ghost use Rattle.evaluator.specs.Answer.{PoolAsks, PoolEvaluated, ReadAsks, ReadEvaluated, EvaluationIs};

use evaluator_cells::numbers::fill_numbers;
use evaluator_run::compute::compute;
use evaluator_run::records::is_well_formed;
use frames::count::{Counts, EXPRESSION_LIMIT, NODE_LIMIT, REQUEST_LIMIT};
use frames::read::fill;
use frames::tables::NODE_WORDS;
use kinds::refusal::{Refusal, Refused};
use pool::admit::admit;

// An admitted pool of `count` nodes, a list and values that are well formed. How many cells are written.
fn evaluate_pool(
    nodes: &[u64; NODE_WORDS],
    literals: &[u64; NODE_LIMIT],
    count: usize,
    list: &[u8],
    m: u64,
    values: &[u64],
    out: &mut [u8],
) -> Result<usize, Refused>
    requires { PoolAsks count list.now m values.now }
    ensures { PoolEvaluated nodes.now literals.now count list.now m values.now out.old out.new result }
{
    let mut numbers = [0u64; NODE_LIMIT];
    fill_numbers(nodes, literals, count, m, &mut numbers);
    let written = compute(list, &numbers, values, m, out)?;
    Ok(written)
}

// What was read: the list, the modulus and the values are looked at before the pool. The tables are lent one by one, as each crate below takes them.
fn evaluate_read(
    nodes: &[u64; NODE_WORDS],
    literals: &[u64; NODE_LIMIT],
    expressions: &[u64; EXPRESSION_LIMIT],
    c: Counts,
    list: &[u8],
    modulus: u32,
    values: &[u64],
    out: &mut [u8],
) -> Result<usize, Refused>
    requires { ReadAsks c }
    ensures { ReadEvaluated nodes.now literals.now expressions.now c list.now modulus values.now out.old out.new result }
{
    if !is_well_formed(list, modulus, values) {
        return Err(Refusal::Malformed.into());
    }
    admit(nodes, expressions, &[], c.nodes, c.expressions)?;
    evaluate_pool(nodes, literals, c.nodes, list, modulus as u64, values, out)
}

// A pool as frames, each behind its length (2 bytes, the high one first); requests among them are read and not served. Runs the records of `list` downwards
// modulo `modulus` and puts the final value of every cell written at the front of `out`. Answers how many cells are written.
pub fn evaluate(
    s: &[u8],
    list: &[u8],
    modulus: u32,
    values: &[u64],
    out: &mut [u8],
) -> Result<usize, Refused>
    ensures { EvaluationIs s.now list.now modulus values.now out.old out.new result }
{
    let mut nodes = [0u64; NODE_WORDS];
    let mut literals = [0u64; NODE_LIMIT];
    let mut expressions = [0u64; EXPRESSION_LIMIT];
    let mut requests = [0u64; REQUEST_LIMIT];
    let c = fill(
        s,
        &mut nodes,
        &mut literals,
        &mut expressions,
        &mut requests,
    )?;
    evaluate_read(
        &nodes,
        &literals,
        &expressions,
        c,
        list,
        modulus,
        values,
        out,
    )
}
