// Refusals 2 and 3 over a pool and a plan.
ghost use Rattle.std.specs.Prelude.{◌≡◌};
ghost use Rattle.planning.specs.Answers.{ShapeAsked, ShapeGiven, ThereGiven};

use frames::count::EXPRESSION_LIMIT;
use frames::tables::NODE_WORDS;
use kinds::refusal::{Refusal, Refused};
use plans::layout::{cm_count, q2exp_count};
use plans::there::{leaves_there, names_there};
use pool::admit::shape_of;

fn all_there(plan: &[u8], nodes: &[u64; NODE_WORDS], n: usize, m: usize) -> bool
    requires { ShapeAsked plan.now n m }
    ensures { ThereGiven plan.now nodes.now n m result }
{
    if !names_there(plan, m) {
        return false;
    }
    leaves_there(nodes, n, cm_count(plan), q2exp_count(plan))
}

// What the plan names and is not there comes after the whole pool's own 2 and 3, and has no node to blame.
pub fn plan_shape(
    plan: &[u8],
    nodes: &[u64; NODE_WORDS],
    expressions: &[u64; EXPRESSION_LIMIT],
    n: usize,
    m: usize,
) -> Result<(), Refused>
    requires { ShapeAsked plan.now n m }
    ensures { ShapeGiven plan.now nodes.now expressions.now n m result }
{
    shape_of(nodes, expressions, n, m)?;
    if all_there(plan, nodes, n, m) {
        return Ok(());
    }
    Err(Refusal::NotThere.into())
}
