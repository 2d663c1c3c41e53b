// The closing product: q = the last destination · Zi, at the end of the last block.
ghost use Rattle.std.specs.Prelude.{◌≡◌, ◌≤◌, length};
ghost use Rattle.codegen.specs.Written.{fits};
ghost use Rattle.codegen.specs.Committing.{step_bound};
ghost use Rattle.constraint_pieces.specs.Closed.{closing_step, closed_list, PutAsks};
ghost use Rattle.constraint_pieces.specs.Closing.{CloseAsked, GoodClosed, CloseGiven};

use builds::result::grow;
use codegen::commit::has_room;
use codegen::store::store;
use context::check::is_good;
use context::layout::{blocks_of, steps_of, temporaries_of};
use context::load::{load_blocks, load_marks};
use frames::count::EXPRESSION_LIMIT;
use kinds::kind::Kind;
use kinds::reference::Reference;
use kinds::refusal::{Refusal, Refused};
use kinds::step::{STEP_SIZE, Step, nth_step, put_nth_step};
use kinds::step_op::StepOp;
use starkinfo_codegen::order::JOB_LIMIT;

const SOURCES: u8 = 2;

fn closing_step(last: Reference) -> Step
    ensures { result ≡ closing_step last }
{
    Step {
        op: StepOp::MUL,
        count: SOURCES,
        origin: Step::NO_ORIGIN,
        dest: Reference::plain(Kind::Q, 0, 0),
        s0: last,
        s1: Reference::plain(Kind::ZI, 0, 0),
        s2: Reference::blank(),
    }
}

// After the first n steps of a list.
pub fn put_closing(list: &mut [u8], n: usize)
    requires { PutAsks (length list.old) n }
    ensures { list.new ≡ closed_list list.old n }
{
    let last = nth_step(list, n - 1);
    put_nth_step(list, n, closing_step(last.dest));
}

// A good context of some pool.
fn close_good(context: &mut [u8], list: &mut [u8]) -> Result<(), Refused>
    requires { CloseAsked context.old list.old }
    ensures { GoodClosed context.old context.new list.old list.new result }
{
    let blocks = blocks_of(context);
    let at = steps_of(context);
    let t = temporaries_of(context);
    if blocks == 0 {
        return Err(Refusal::NoBlock.into());
    }
    if !has_room(list, at + 1, t) {
        return Err(Refusal::Full.into());
    }
    let mut marks = [0u8; JOB_LIMIT];
    let mut words = [0u64; JOB_LIMIT];
    load_marks(context, &mut marks);
    load_blocks(context, &mut words);
    put_closing(list, at);
    grow(&mut words, blocks - 1);
    store(context, &mut marks, &words, blocks, at + 1, t);
    Ok(())
}

// Of a pool of m expressions: past the pool's limit 9, a context that is not good 1, no block 8, no room 9.
pub fn close(m: usize, context: &mut [u8], list: &mut [u8]) -> Result<(), Refused>
    ensures { CloseGiven m context.old context.new list.old list.new result }
{
    if EXPRESSION_LIMIT < m {
        return Err(Refusal::Full.into());
    }
    if !is_good(context, list.len(), m) {
        return Err(Refusal::Malformed.into());
    }
    close_good(context, list)
}
