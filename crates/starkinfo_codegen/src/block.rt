// The block of an expression at a row.
ghost use Rattle.std.specs.Prelude.{length};
ghost use Rattle.starkinfo_codegen.specs.Emitting.{BlockAsked, BlockGiven};

use crate::eval::eval_step;
use crate::source::{copy_step, leaf_reference};
use frames::tables::NODE_WORDS;
use kinds::kind::Kind;
use kinds::reference::{Reference, put_reference};
use kinds::step::{STEP_SIZE, put_nth_step};

// Where the destination stands in a step's record.
const DEST: usize = 4;

// Writes the block of expression `e` from step number `at` and temporary `t` on, and answers how many steps it has. An operation at the root writes
// the cell itself and gives its temporary back; a leaf is copied.
pub fn block(
    nodes: &[u64; NODE_WORDS],
    list: &mut [u8],
    row: u8,
    fused: bool,
    at: usize,
    t: usize,
    root: u16,
    e: u16,
) -> usize
    requires { BlockAsked nodes.now fused row t root e at (length list.old) }
    ensures { BlockGiven nodes.now fused row t root e at list.old list.new result }
{
    let steps = eval_step(nodes, list, row, fused, at, t, root);
    let cell = Reference::plain(Kind::EXP, row, e);
    if steps == 0 {
        let leaf = leaf_reference(nodes, row, root);
        put_nth_step(list, at, copy_step(cell, leaf));
        return 1;
    }
    let last = at + (steps - 1);
    put_reference(list, STEP_SIZE * last + DEST, cell);
    steps
}
