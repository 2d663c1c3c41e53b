// Is a context good? Its contents are the caller's word, so all of it is looked at.
ghost use Rattle.std.specs.Prelude.{◌≡◌, ◌≤◌, length};
ghost use Rattle.frames.specs.Order.{expression_limit};
ghost use Rattle.context.specs.Context.{context_size, blocks_in, steps_before, Fixed, Head, Mark, Marks, Block, Blocks, CellsApart, Good, Exactly};
ghost use Rattle.context.specs.Tables.{Tabled, MarksChecked, BlockChecked, BlocksChecked, CellsChecked};

use crate::layout::{
    CONTEXT_SIZE, MARKS_AT, MODE_AT, ROWS_AT, SPARE_AT, VERSION_AT, blocks_of, entry_at, steps_of,
};
use kinds::step::STEP_SIZE;
use starkinfo_codegen::order::JOB_LIMIT;
use starkinfo_codegen::out::ROWS;

pub const VERSION: u8 = 0;

pub const MODE: u8 = 0;

pub const ROW_COUNT: u8 = ROWS as u8;

pub const SPARE: u8 = 0;

const UNMARKED: u8 = 0;

const MARKED: u8 = 1;

fn fixed_good(context: &[u8]) -> bool
    requires { length context.now ≡ context_size }
    ensures { Exactly result (Fixed context.now) }
{
    context[VERSION_AT] == VERSION
        && context[MODE_AT] == MODE
        && context[ROWS_AT] == ROW_COUNT
        && context[SPARE_AT] == SPARE
}

fn head_good(context: &[u8], room: usize) -> bool
    ensures { Exactly result (Head context.now room) }
{
    context.len() == CONTEXT_SIZE
        && fixed_good(context)
        && blocks_of(context) <= JOB_LIMIT
        && STEP_SIZE * steps_of(context) <= room
}

// The mark of a cell, in a pool of m expressions.
fn mark_good(mark: u8, cell: usize, m: usize) -> bool
    requires { m ≤ expression_limit }
    ensures { Exactly result (Mark mark cell m) }
{
    if cell < ROWS * m {
        return mark <= MARKED;
    }
    mark == UNMARKED
}

fn marks_good(context: &[u8], m: usize) -> bool
    requires { MarksChecked context.now m }
    ensures { Exactly result (Marks context.now m) }
{
    (0..JOB_LIMIT).all(|cell| mark_good(context[MARKS_AT + cell], cell, m))
}

fn block_good(context: &[u8], k: usize, m: usize) -> bool
    requires { BlockChecked context.now k m }
    ensures { Exactly result (Block context.now m k) }
{
    let entry = entry_at(context, k);
    if m <= entry.expression as usize || ROWS <= entry.prime as usize || entry.steps == 0 {
        return false;
    }
    let cell = entry.cell();
    context[MARKS_AT + cell] == MARKED
}

fn blocks_good(context: &[u8], m: usize) -> bool
    requires { BlocksChecked context.now m }
    ensures { Exactly result (Blocks context.now m) }
{
    (0..blocks_of(context)).all(|k| block_good(context, k, m))
}

fn cells_apart(context: &[u8]) -> bool
    requires { CellsChecked context.now }
    ensures { Exactly result (CellsApart context.now) }
{
    let n = blocks_of(context);
    let mut seen = [0u8; JOB_LIMIT];
    for k in 0..n {
        let cell = entry_at(context, k).cell();
        if seen[cell] == MARKED {
            return false;
        }
        seen[cell] = MARKED;
    }
    true
}

fn total_steps(context: &[u8]) -> usize
    requires { Tabled context.now }
    ensures { result ≡ steps_before context.now (blocks_in context.now) }
{
    let n = blocks_of(context);
    let mut steps: usize = 0;
    for k in 0..n {
        let entry = entry_at(context, k);
        steps += entry.steps as usize;
    }
    steps
}

// For a pool of m expressions and a list of `room` bytes. Where it is not good it is a malformed record, refusal 1.
pub fn is_good(context: &[u8], room: usize, m: usize) -> bool
    requires { m ≤ expression_limit }
    ensures { Exactly result (Good context.now m room) }
{
    head_good(context, room)
        && marks_good(context, m)
        && blocks_good(context, m)
        && cells_apart(context)
        && total_steps(context) == steps_of(context)
}
