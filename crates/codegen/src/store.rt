// Tables stored into a context.
ghost use Rattle.std.specs.Prelude.{◌≡◌, cond, length, ltb};
ghost use Rattle.starkinfo_codegen.specs.Ordering.{marks_of};
ghost use Rattle.context.specs.Context.{cells};
ghost use Rattle.context.specs.Held.{stored_in};
ghost use Rattle.codegen.specs.Written.{mark_bytes};
ghost use Rattle.codegen.specs.Committing.{StoreAsked};

use context::store::{store_blocks, store_counters, store_marks};
use starkinfo_codegen::order::JOB_LIMIT;

const UNMARKED: u8 = 0;

const MARKED: u8 = 1;

fn mark_byte(mark: u8) -> u8
    ensures { result ≡ cond (ltb 0 mark) 1 0 }
{
    if UNMARKED < mark {
        return MARKED;
    }
    UNMARKED
}

// A mark is a byte 0 or 1.
fn settle(marks: &mut [u8; JOB_LIMIT])
    requires { length marks.old ≡ cells }
    ensures { marks.new ≡ mark_bytes (marks_of marks.old) }
{
    for c in 0..JOB_LIMIT {
        marks[c] = mark_byte(marks[c]);
    }
}

// Counters, marks, and the words of all blocks.
pub fn store(
    context: &mut [u8],
    marks: &mut [u8; JOB_LIMIT],
    words: &[u64; JOB_LIMIT],
    blocks: usize,
    steps: usize,
    temporaries: usize,
)
    requires { StoreAsked context.old marks.old words.now blocks steps temporaries }
    ensures { context.new ≡ stored_in context.old (mark_bytes (marks_of marks.old)) words.now 0 blocks steps temporaries }
{
    settle(marks);
    store_counters(context, blocks, steps, temporaries);
    store_marks(context, marks);
    store_blocks(context, words, 0, blocks);
}
