// A build of a lent context (`build_code`): its first, i and last lists, all of them or none.
ghost use Rattle.std.specs.Prelude.{◌≡◌, ◌*◌, ◌≤◌, length, leb};
ghost use Rattle.kinds.specs.Steps.{step_size};
ghost use Rattle.frames.specs.Order.{node_limit, expression_limit};
ghost use Rattle.codegen.specs.Building.{lists, BuildAsks, ContextBuilt, ReadBuilt, BuildGiven};

use crate::store::store;
use builds::build::{Which, copy_list, list_size};
use builds::flags::mark_released;
use context::check;
use context::layout::{blocks_of, steps_of, temporaries_of};
use context::load::{load_blocks, load_marks};
use frames::count::{Counts, EXPRESSION_LIMIT, NODE_LIMIT, REQUEST_LIMIT};
use frames::read::fill;
use frames::tables::NODE_WORDS;
use kinds::refusal::{Refusal, Refused};
use kinds::step::STEP_SIZE;
use pool::admit::admit;
use starkinfo_codegen::order::JOB_LIMIT;

// How many steps each list has.
#[derive(Clone, Copy, Debug, PartialEq, Eq)]
pub struct Sizes {
    pub first: usize,
    pub i: usize,
    pub last: usize,
}

// Whether a list has room for so many steps.
pub fn list_fits(out: &[u8], steps: usize) -> bool
    requires { steps ≤ 65535 }
    ensures { result ≡ leb (step_size * steps) (length out.now) }
{
    STEP_SIZE * steps <= out.len()
}

// A good context of a pool with m expressions. The first list has all steps that it has.
fn build_context(
    expressions: &[u64; EXPRESSION_LIMIT],
    context: &mut [u8],
    list: &[u8],
    first: &mut [u8],
    i: &mut [u8],
    last: &mut [u8],
    m: usize,
) -> Result<Sizes, Refused>
    requires { BuildAsks context.old list.now m }
    ensures { ContextBuilt expressions.now context.old context.new list.now m (lists first.old i.old last.old) (lists first.new i.new last.new) result }
{
    let mut marks = [0u8; JOB_LIMIT];
    let mut words = [0u64; JOB_LIMIT];
    load_marks(context, &mut marks);
    load_blocks(context, &mut words);
    let blocks = blocks_of(context);
    let all = steps_of(context);
    let t = temporaries_of(context);
    let without_plain = list_size(&words, expressions, blocks, m, Which::I);
    let without_any = list_size(&words, expressions, blocks, m, Which::Last);
    if !list_fits(first, all) {
        return Err(Refusal::Full.into());
    }
    if !list_fits(i, without_plain) {
        return Err(Refusal::Full.into());
    }
    if !list_fits(last, without_any) {
        return Err(Refusal::Full.into());
    }
    copy_list(list, &words, expressions, first, blocks, m, Which::First);
    copy_list(list, &words, expressions, i, blocks, m, Which::I);
    copy_list(list, &words, expressions, last, blocks, m, Which::Last);
    mark_released(expressions, &mut marks, m);
    store(context, &mut marks, &words, 0, 0, t);
    Ok(Sizes {
        first: all,
        i: without_plain,
        last: without_any,
    })
}

fn build_read(
    nodes: &[u64; NODE_WORDS],
    expressions: &[u64; EXPRESSION_LIMIT],
    context: &mut [u8],
    list: &[u8],
    first: &mut [u8],
    i: &mut [u8],
    last: &mut [u8],
    c: Counts,
) -> Result<Sizes, Refused>
    requires { (c.nodes ≤ node_limit) × (c.expressions ≤ expression_limit) }
    ensures { ReadBuilt nodes.now expressions.now context.old context.new list.now c (lists first.old i.old last.old) (lists first.new i.new last.new) result }
{
    if !check::is_good(context, list.len(), c.expressions) {
        return Err(Refusal::Malformed.into());
    }
    let no_table = [0u8; 0];
    admit(nodes, expressions, &no_table, c.nodes, c.expressions)?;
    build_context(expressions, context, list, first, i, last, c.expressions)
}

// A pool as frames, a context with its list, and room for three lists. Requests among the frames are not served.
pub fn build_code(
    s: &[u8],
    context: &mut [u8],
    list: &[u8],
    first: &mut [u8],
    i: &mut [u8],
    last: &mut [u8],
) -> Result<Sizes, Refused>
    ensures { BuildGiven s.now context.old context.new list.now (lists first.old i.old last.old) (lists first.new i.new last.new) result }
{
    let mut nodes = [0u64; NODE_WORDS];
    let mut literals = [0u64; NODE_LIMIT];
    let mut expressions = [0u64; EXPRESSION_LIMIT];
    let mut requests = [0u64; REQUEST_LIMIT];
    let c = fill(
        s,
        &mut nodes,
        &mut literals,
        &mut expressions,
        &mut requests,
    )?;
    build_read(&nodes, &expressions, context, list, first, i, last, c)
}
