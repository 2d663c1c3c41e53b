// Members marked at both rows: they stand in columns, and no list has to make them any more.
ghost use Rattle.std.specs.Prelude.{◌≡◌, ◌<◌, length};
ghost use Rattle.frames.specs.Order.{expression_limit};
ghost use Rattle.constraint_pieces.specs.Marks.{AllBelow, all_below, mark_one, mark_all};
ghost use Rattle.constraint_pieces.specs.Marking.{MarkGoodAsks, GoodMarked, MarkGiven};

use context::check::is_good;
use context::load::load_marks;
use context::store::store_marks;
use frames::count::EXPRESSION_LIMIT;
use kinds::refusal::{Refusal, Refused};
use starkinfo_codegen::order::JOB_LIMIT;
use starkinfo_codegen::out::ROWS;

const MARKED: u8 = 1;

fn mark_one(marks: &mut [u8; JOB_LIMIT], e: usize)
    requires { e < expression_limit }
    ensures { marks.new ≡ mark_one e marks.old }
{
    let cell = ROWS * e;
    marks[cell] = MARKED;
    marks[cell + 1] = MARKED;
}

pub fn mark_members(marks: &mut [u8; JOB_LIMIT], members: &[u64])
    requires { AllBelow expression_limit members.now }
    ensures { marks.new ≡ mark_all members.now marks.old }
{
    for e in members {
        mark_one(marks, *e as usize);
    }
}

fn all_there(members: &[u64], m: usize) -> bool
    ensures { result ≡ all_below m members.now }
{
    members.iter().all(|e| (*e as usize) < m)
}

// In a context of its size; no other byte of it changes.
fn mark_good(members: &[u64], context: &mut [u8])
    requires { MarkGoodAsks members.now context.old }
    ensures { GoodMarked members.now context.old context.new }
{
    let mut marks = [0u8; JOB_LIMIT];
    load_marks(context, &mut marks);
    mark_members(&mut marks, members);
    store_marks(context, &marks);
}

// Of a pool of m expressions, in a context and its list: past the pool's limit 9, a context that is not good 1, a member that is not there 3.
pub fn mark(members: &[u64], m: usize, context: &mut [u8], list: &[u8]) -> Result<(), Refused>
    ensures { MarkGiven members.now m context.old context.new list.now result }
{
    if EXPRESSION_LIMIT < m {
        return Err(Refusal::Full.into());
    }
    if !is_good(context, list.len(), m) {
        return Err(Refusal::Malformed.into());
    }
    if !all_there(members, m) {
        return Err(Refusal::NotThere.into());
    }
    mark_good(members, context);
    Ok(())
}
