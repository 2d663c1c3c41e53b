// A context's marks and blocks, read into tables.
ghost use Rattle.std.specs.Prelude.{◌≡◌};
ghost use Rattle.kinds.specs.Write.{write};
ghost use Rattle.context.specs.Context.{blocks_in};
ghost use Rattle.context.specs.Tables.{marks_in, word_of, words_in, LoadAsks, MarksAsk};

use crate::layout::{Entry, MARKS_AT, blocks_of, entry_at};
use starkinfo_codegen::order::JOB_LIMIT;

pub fn load_marks(context: &[u8], marks: &mut [u8; JOB_LIMIT])
    requires { MarksAsk context.now marks.old }
    ensures { marks.new ≡ marks_in context.now }
{
    // No `copy_from_slice`: it would need `memmove` of those who link the library in C.
    for cell in 0..JOB_LIMIT {
        marks[cell] = context[MARKS_AT + cell];
    }
}

// A block as one word of the lent table: its cell, and its steps above it.
impl From<Entry> for u64 {
    ghost from_gives = { λ e word. word ≡ word_of e };

    fn from(e: Entry) -> u64 {
        (e.cell() + JOB_LIMIT * e.steps as usize) as u64
    }
}

// The words of the blocks, at the front of the table.
pub fn load_blocks(context: &[u8], blocks: &mut [u64; JOB_LIMIT])
    requires { LoadAsks context.now blocks.old }
    ensures { blocks.new ≡ write blocks.old 0 (words_in context.now (blocks_in context.now)) }
{
    let n = blocks_of(context);
    for k in 0..n {
        blocks[k] = entry_at(context, k).into();
    }
}
