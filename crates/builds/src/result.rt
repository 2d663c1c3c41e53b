// A result's copy: at the end of its expression's block, also in the middle of a list.
ghost use Rattle.std.specs.Prelude.{◌≡◌, ◌+◌, ◌*◌, ◌-◌, ◌≤◌, length, get_or, set};
ghost use Rattle.kinds.specs.Write.{write};
ghost use Rattle.kinds.specs.Steps.{step_size, steps_bytes};
ghost use Rattle.builds.specs.Raw.{start_of, records_from};
ghost use Rattle.builds.specs.Results.{find_block, inserted, StartAsks, GrowAsks, MoveAsks, InsertAsks};

use crate::blocks::{CELLS, cell_of, steps_of};
use kinds::reference::Reference;
use kinds::step::{nth_step, put_nth_step};
use starkinfo_codegen::order::JOB_LIMIT;
use starkinfo_codegen::source::copy_step;

// The first of n blocks that has this cell.
pub fn find_block(blocks: &[u64; JOB_LIMIT], n: usize, cell: usize) -> Option<usize>
    requires { n ≤ 1024 }
    ensures { result ≡ find_block blocks.now n cell }
{
    blocks[..n].iter().position(|word| cell_of(*word) == cell)
}

// How many steps the first n blocks have: where block n starts, and the block before it ends.
pub fn start_of(blocks: &[u64; JOB_LIMIT], n: usize) -> usize
    requires { StartAsks blocks.now n }
    ensures { result ≡ start_of blocks.now n }
{
    let mut steps: usize = 0;
    for k in 0..n {
        steps += steps_of(blocks[k]);
    }
    steps
}

// Block k has one step more.
pub fn grow(blocks: &mut [u64; JOB_LIMIT], k: usize)
    requires { GrowAsks blocks.old k }
    ensures { blocks.new ≡ set blocks.old k (get_or blocks.old k 0 + 1024) }
{
    blocks[k] = blocks[k] + CELLS;
}

// The steps from number `pos` to `end` go up by one, the last one first.
fn move_up(list: &mut [u8], pos: usize, end: usize)
    requires { MoveAsks (length list.old) pos end }
    ensures { list.new ≡ write list.old (step_size * (pos + 1)) (steps_bytes (records_from list.old pos (end - pos))) }
{
    for k in (pos..end).rev() {
        put_nth_step(list, k + 1, nth_step(list, k));
    }
}

// Puts a copy of the destination of the step before `pos` at `pos`, in a list of `end` steps.
pub fn insert_copy(list: &mut [u8], pos: usize, end: usize, dest: Reference)
    requires { InsertAsks (length list.old) pos end }
    ensures { list.new ≡ inserted list.old pos end dest }
{
    let last = nth_step(list, pos - 1);
    move_up(list, pos, end);
    put_nth_step(list, pos, copy_step(dest, last.dest));
}
