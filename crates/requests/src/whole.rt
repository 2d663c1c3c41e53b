// The whole run of document 01's program over tables: a pool admitted, its requests served on a fresh context, and the first list built.
ghost use Rattle.std.specs.Prelude.{length};
ghost use Rattle.requests.specs.Whole.{FreshAsked, FreshGiven, WholeAsked, WholeGiven};

use crate::generate::generate;
use frames::count::{Counts, EXPRESSION_LIMIT, REQUEST_LIMIT};
use frames::tables::NODE_WORDS;
use kinds::refusal::Refused;
use pool::admit::admit;
use starkinfo_codegen::order::JOB_LIMIT;

// How many steps and temporaries there are.
#[derive(Clone, Copy, Debug, PartialEq, Eq)]
pub struct Totals {
    pub steps: usize,
    pub counter: usize,
}

// The requests of a pool that is admitted.
fn serve_fresh(
    nodes: &[u64; NODE_WORDS],
    expressions: &[u64; EXPRESSION_LIMIT],
    requests: &[u64; REQUEST_LIMIT],
    list: &mut [u8],
    m: usize,
    count: usize,
) -> Result<Totals, Refused>
    requires { FreshAsked nodes.now expressions.now requests.now m count }
    ensures { FreshGiven nodes.now expressions.now requests.now list.old list.new m count result }
{
    let mut marks = [0u8; JOB_LIMIT];
    let mut jobs = [0u64; JOB_LIMIT];
    let made = generate(
        nodes,
        expressions,
        requests,
        &mut marks,
        &mut jobs,
        list,
        m,
        count,
        0,
        0,
    )?;
    Ok(Totals {
        steps: made.steps,
        counter: made.steps - made.jobs,
    })
}

// Writes the first list at the front of `list`. Where the pool or a request is refused, or the list does not fit, nothing is written.
pub fn whole_run(
    nodes: &[u64; NODE_WORDS],
    expressions: &[u64; EXPRESSION_LIMIT],
    requests: &[u64; REQUEST_LIMIT],
    list: &mut [u8],
    c: Counts,
) -> Result<Totals, Refused>
    requires { WholeAsked nodes.now expressions.now requests.now c }
    ensures { WholeGiven nodes.now expressions.now requests.now list.old list.new c result }
{
    let no_table = [0u8; 0];
    admit(nodes, expressions, &no_table, c.nodes, c.expressions)?;
    serve_fresh(
        nodes,
        expressions,
        requests,
        list,
        c.expressions,
        c.requests,
    )
}
