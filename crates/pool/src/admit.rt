// Admission of a pool: refusals 2, 3 and 4, each over the whole pool, in that order.
ghost use Rattle.std.specs.Prelude.{◌≡◌, ◌≤◌};
ghost use Rattle.frames.specs.Order.{node_limit, expression_limit};
ghost use Rattle.kinds.specs.Answers.{refusal_of};
ghost use Rattle.pool.specs.Admission.{unless};
ghost use Rattle.pool.specs.Shapes.{found_at};
ghost use Rattle.std.proofs.Math.Option.{some};
ghost use Rattle.pool.specs.Entries.{entries_in};
ghost use Rattle.pool.specs.Ranking.{AllAsked};
ghost use Rattle.pool.specs.Admitting.{shape_says, ShapeGiven, RankedGiven, Fits, AdmitGiven};

use crate::cycle::first_on_cycle;
use crate::rank::rank_all;
use crate::shape::{
    first_late_child, first_lost_leaf, first_lost_root, first_used_twice, first_wrong_count,
};
use crate::uses::{tally_nodes, tally_roots};
use frames::count::{EXPRESSION_LIMIT, NODE_LIMIT};
use frames::tables::NODE_WORDS;
use kinds::refusal::{Refusal, Refused};

// A refusal that blames the node that was found, where one was.
fn unless(refusal: Refusal, found: Option<usize>) -> Result<(), Refused>
    ensures { shape_says result ≡ unless (refusal_of refusal) some (found_at found) }
{
    match found {
        Some(i) => Err(Refused::at(refusal, i)),
        None => Ok(()),
    }
}

// Refusals 2 and 3. A root that is not there has no node to blame.
pub fn shape_of(
    nodes: &[u64; NODE_WORDS],
    expressions: &[u64; EXPRESSION_LIMIT],
    n: usize,
    m: usize,
) -> Result<(), Refused>
    requires { (n ≤ node_limit) × (m ≤ expression_limit) }
    ensures { ShapeGiven nodes.now expressions.now n m result }
{
    unless(Refusal::ChildCount, first_wrong_count(nodes, n))?;
    unless(Refusal::NotThere, first_late_child(nodes, n))?;
    let mut uses = [0u8; NODE_LIMIT];
    tally_nodes(nodes, &mut uses, n);
    tally_roots(expressions, &mut uses, m);
    unless(Refusal::NotThere, first_used_twice(&uses, n))?;
    unless(Refusal::NotThere, first_lost_leaf(nodes, n, m))?;
    if first_lost_root(expressions, n, m).is_some() {
        return Err(Refusal::NotThere.into());
    }
    Ok(())
}

// Refusal 4, or the rank of each expression, with 2 added.
pub fn ranked(
    nodes: &[u64; NODE_WORDS],
    expressions: &[u64; EXPRESSION_LIMIT],
    table: &[u8],
    m: usize,
) -> Result<[u64; EXPRESSION_LIMIT], Refused>
    requires { AllAsked nodes.now expressions.now (entries_in table.now) m }
    ensures { RankedGiven nodes.now expressions.now (entries_in table.now) m result }
{
    match rank_all(nodes, expressions, table, m) {
        Some(ranks) => Ok(ranks),
        None => Err(Refused::at(Refusal::Cycle, first_on_cycle(nodes, expressions, table, m))),
    }
}

// The pool that stands in tables, with n nodes and m expressions, and a table from q numbers to expressions, which is empty for a pool alone.
// Where it is admitted, the rank of each expression, with 2 added.
pub fn admit(
    nodes: &[u64; NODE_WORDS],
    expressions: &[u64; EXPRESSION_LIMIT],
    table: &[u8],
    n: usize,
    m: usize,
) -> Result<[u64; EXPRESSION_LIMIT], Refused>
    requires { Fits (entries_in table.now) n m }
    ensures { AdmitGiven nodes.now expressions.now (entries_in table.now) n m result }
{
    shape_of(nodes, expressions, n, m)?;
    ranked(nodes, expressions, table, m)
}
