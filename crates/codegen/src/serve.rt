// Requests on a lent context: the caller vouches for nothing, and on a refusal nothing lent has changed.
ghost use Rattle.std.specs.Prelude.{◌≡◌, true, ◌||◌, ◌+◌, eqb};
ghost use Rattle.requests.specs.Whole.{WholeAsked};
ghost use Rattle.codegen.specs.Serving.{ServeAsked, PlainServed, ResultServed, WantedServed, ReadServed, ServeGiven};
ghost use Rattle.codegen.specs.Results.{result_good};

use crate::asked::{NO_KIND, Wanted, destination, is_good};
use crate::commit::{commit, commit_result};
use context::check;
use context::load::{load_blocks, load_marks};
use frames::count::{Counts, EXPRESSION_LIMIT, NODE_LIMIT, REQUEST_LIMIT};
use frames::read::fill;
use frames::tables::{NODE_WORDS, request_at};
use kinds::refusal::{Refusal, Refused};
use pool::admit::admit;
use requests::last::plan_last;
use requests::plan::plan_all;
use starkinfo_codegen::order::JOB_LIMIT;
use starkinfo_codegen::out::ROWS;

const PLAIN: u8 = 0;

// A primed request may ask for a result only where its expression has a primed mark (7).
fn is_allowed(marked: bool, prime: u8) -> bool
    ensures { result ≡ (marked || eqb prime 0) }
{
    if marked {
        return true;
    }
    prime == PLAIN
}

// Requests of which none asks for a result.
fn serve_plain(
    nodes: &[u64; NODE_WORDS],
    expressions: &[u64; EXPRESSION_LIMIT],
    requests: &[u64; REQUEST_LIMIT],
    context: &mut [u8],
    list: &mut [u8],
    m: usize,
    count: usize,
) -> Result<(), Refused>
    requires { ServeAsked nodes.now expressions.now requests.now context.old list.old m count }
    ensures { PlainServed nodes.now expressions.now requests.now context.old context.new list.old list.new m count result }
{
    let mut marks = [0u8; JOB_LIMIT];
    let mut words = [0u64; JOB_LIMIT];
    let mut jobs = [0u64; JOB_LIMIT];
    load_marks(context, &mut marks);
    load_blocks(context, &mut words);
    let n = plan_all(
        nodes,
        expressions,
        requests,
        &mut marks,
        &mut jobs,
        m,
        count,
    )?;
    commit(
        nodes,
        expressions,
        &jobs,
        &mut marks,
        &mut words,
        context,
        list,
        n,
    )
}

// Requests up to number `k`, which asks for a result.
fn serve_result(
    nodes: &[u64; NODE_WORDS],
    expressions: &[u64; EXPRESSION_LIMIT],
    requests: &[u64; REQUEST_LIMIT],
    context: &mut [u8],
    list: &mut [u8],
    m: usize,
    k: usize,
    w: Wanted,
) -> Result<(), Refused>
    requires { ServeAsked nodes.now expressions.now requests.now context.old list.old m (k + 1) }
    ensures { ResultServed nodes.now expressions.now requests.now context.old context.new list.old list.new m (k + 1) w result }
{
    let mut marks = [0u8; JOB_LIMIT];
    let mut words = [0u64; JOB_LIMIT];
    let mut jobs = [0u64; JOB_LIMIT];
    load_marks(context, &mut marks);
    load_blocks(context, &mut words);
    let planned = plan_last(nodes, expressions, requests, &mut marks, &mut jobs, m, k)?;
    let q = request_at(requests, k);
    if !is_allowed(planned.marked, q.prime) {
        return Err(Refusal::NoPrimedMark.into());
    }
    commit_result(
        nodes,
        expressions,
        &jobs,
        &mut marks,
        &mut words,
        context,
        list,
        planned.jobs,
        ROWS * (q.expression as usize) + (q.prime as usize),
        destination(w, q.prime),
    )
}

// A pool that is admitted, a good context, and a result that is well formed.
fn serve_wanted(
    nodes: &[u64; NODE_WORDS],
    expressions: &[u64; EXPRESSION_LIMIT],
    requests: &[u64; REQUEST_LIMIT],
    context: &mut [u8],
    list: &mut [u8],
    m: usize,
    count: usize,
    w: Wanted,
) -> Result<(), Refused>
    requires { ServeAsked nodes.now expressions.now requests.now context.old list.old m count × (result_good w.kind w.id count ≡ true) }
    ensures { WantedServed nodes.now expressions.now requests.now context.old context.new list.old list.new m count w result }
{
    if w.kind == NO_KIND {
        return serve_plain(nodes, expressions, requests, context, list, m, count);
    }
    serve_result(nodes, expressions, requests, context, list, m, count - 1, w)
}

// What was read: the result and the context are looked at before the pool.
fn serve_read(
    nodes: &[u64; NODE_WORDS],
    expressions: &[u64; EXPRESSION_LIMIT],
    requests: &[u64; REQUEST_LIMIT],
    context: &mut [u8],
    list: &mut [u8],
    c: Counts,
    w: Wanted,
) -> Result<(), Refused>
    requires { WholeAsked nodes.now expressions.now requests.now c }
    ensures { ReadServed nodes.now expressions.now requests.now context.old context.new list.old list.new c w result }
{
    if !is_good(w, c.requests) {
        return Err(Refusal::Malformed.into());
    }
    if !check::is_good(context, list.len(), c.expressions) {
        return Err(Refusal::Malformed.into());
    }
    let no_table = [0u8; 0];
    admit(nodes, expressions, &no_table, c.nodes, c.expressions)?;
    serve_wanted(
        nodes,
        expressions,
        requests,
        context,
        list,
        c.expressions,
        c.requests,
        w,
    )
}

// A pool and its requests as frames, each behind its length (2 bytes, the high one first); the result that the last of them asks for, kind 0 and id 0 for
// none; a context and its list.
pub fn serve(s: &[u8], w: Wanted, context: &mut [u8], list: &mut [u8]) -> Result<(), Refused>
    ensures { ServeGiven s.now w context.old context.new list.old list.new result }
{
    let mut nodes = [0u64; NODE_WORDS];
    let mut literals = [0u64; NODE_LIMIT];
    let mut expressions = [0u64; EXPRESSION_LIMIT];
    let mut requests = [0u64; REQUEST_LIMIT];
    let c = fill(
        s,
        &mut nodes,
        &mut literals,
        &mut expressions,
        &mut requests,
    )?;
    serve_read(&nodes, &expressions, &requests, context, list, c, w)
}
