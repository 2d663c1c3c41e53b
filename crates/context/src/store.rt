// Tables written back into a context, and a fresh one.
ghost use Rattle.std.specs.Prelude.{◌≡◌, ◌<◌, ◌/◌, length, replicate};
ghost use Rattle.kinds.specs.Write.{write};
ghost use Rattle.context.specs.Context.{cells, place_of};
ghost use Rattle.context.specs.Entries.{entry_bytes};
ghost use Rattle.context.specs.Tables.{entry_of, with_counters, with_marks, with_blocks, EntryAsks, MarksAsk, CountersAsk, StoreAsks, Freshened};

use crate::check::ROW_COUNT;
use crate::layout::{
    BLOCKS_AT, CONTEXT_SIZE, ENTRY_SIZE, Entry, MARKS_AT, PRIME, ROWS_AT, STEPS, STEPS_AT,
    TABLE_AT, TEMPORARIES_AT,
};
use kinds::big_endian::put_u16;
use starkinfo_codegen::order::JOB_LIMIT;
use starkinfo_codegen::out::ROWS;

pub fn store_counters(context: &mut [u8], blocks: usize, steps: usize, temporaries: usize)
    requires { CountersAsk context.old blocks steps temporaries }
    ensures { context.new ≡ with_counters context.old blocks steps temporaries }
{
    put_u16(context, BLOCKS_AT, blocks as u16);
    put_u16(context, STEPS_AT, steps as u16);
    put_u16(context, TEMPORARIES_AT, temporaries as u16);
}

pub fn store_marks(context: &mut [u8], marks: &[u8; JOB_LIMIT])
    requires { MarksAsk context.old marks.now }
    ensures { context.new ≡ with_marks context.old marks.now }
{
    // As in `load_marks`.
    for cell in 0..JOB_LIMIT {
        context[MARKS_AT + cell] = marks[cell];
    }
}

// The entry that a word says.
fn entry_of(word: u64) -> Entry
    requires { word / cells < 65536 }
    ensures { result ≡ entry_of word }
{
    let word = word as usize;
    Entry {
        expression: (word % JOB_LIMIT / ROWS) as u16,
        prime: (word % ROWS) as u16,
        steps: (word / JOB_LIMIT) as u16,
    }
}

fn put_entry(context: &mut [u8], k: usize, e: Entry)
    requires { EntryAsks context.old k }
    ensures { context.new ≡ write context.old (place_of k) (entry_bytes e) }
{
    let at = TABLE_AT + ENTRY_SIZE * k;
    put_u16(context, at, e.expression);
    put_u16(context, at + PRIME, e.prime);
    put_u16(context, at + STEPS, e.steps);
}

// Entries from `from` up to `to` of the block table.
pub fn store_blocks(context: &mut [u8], blocks: &[u64; JOB_LIMIT], from: usize, to: usize)
    requires { StoreAsks context.old blocks.now from to }
    ensures { context.new ≡ with_blocks context.old blocks.now from to }
{
    for k in from..to {
        put_entry(context, k, entry_of(blocks[k]));
    }
}

// Every byte is written, so that a fresh context is always the same; false, and nothing is written, where the size is another.
pub fn fresh(context: &mut [u8]) -> bool
    ensures { Freshened context.old context.new result }
{
    if context.len() != CONTEXT_SIZE {
        return false;
    }
    context.fill(0);
    context[ROWS_AT] = ROW_COUNT;
    true
}
