// The block table: for each block a word, its cell and how many steps it has. Packed, so that a table of 1,024 blocks takes 8 KiB of stack.
ghost use Rattle.std.specs.Prelude.{◌≡◌, ◌*◌, length};
ghost use Rattle.kinds.specs.Write.{write};
ghost use Rattle.kinds.specs.Steps.{step_size, steps_bytes};
ghost use Rattle.builds.specs.Raw.{cell_in, steps_in, records_from};
ghost use Rattle.builds.specs.Numbered.{block_in, CopyStepsAsks};

use kinds::step::{nth_step, put_nth_step};
use starkinfo_codegen::order::JOB_LIMIT;
use starkinfo_codegen::out::ROWS;

// A block's cell is below this.
pub const CELLS: u64 = JOB_LIMIT as u64;

pub fn cell_of(word: u64) -> usize
    ensures { result ≡ cell_in word }
{
    (word % CELLS) as usize
}

// What a word says of a block.
#[derive(Drop)]
pub struct Block {
    pub expression: usize,
    pub row: usize,
    pub steps: usize,
}

pub fn block_of(word: u64) -> Block
    ensures { result ≡ block_in word }
{
    let cell = cell_of(word);
    Block {
        expression: cell / ROWS,
        row: cell % ROWS,
        steps: steps_of(word),
    }
}

pub fn steps_of(word: u64) -> usize
    ensures { result ≡ steps_in word }
{
    (word / CELLS) as usize
}

// Copies `count` steps from step number `from` on, to step number `to` on.
pub fn copy_steps(list: &[u8], out: &mut [u8], from: usize, to: usize, count: usize)
    requires { CopyStepsAsks (length list.now) (length out.old) from to count }
    ensures { out.new ≡ write out.old (step_size * to) (steps_bytes (records_from list.now from count)) }
{
    for i in 0..count {
        put_nth_step(out, to + i, nth_step(list, from + i));
    }
}
