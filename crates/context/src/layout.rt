// The places of a context's bytes, and the entries of its block table. Numbers are big-endian.
ghost use Rattle.std.specs.Prelude.{◌≡◌, length};
ghost use Rattle.context.specs.Context.{context_size, blocks_in, steps_in, temporaries_in, entry_in, entry_cell};
ghost use Rattle.context.specs.Tables.{Read16, EntryAsks};

use kinds::big_endian::u16_at;
use starkinfo_codegen::order::JOB_LIMIT;
use starkinfo_codegen::out::ROWS;

pub const VERSION_AT: usize = 0;

pub const MODE_AT: usize = 1;

pub const ROWS_AT: usize = 2;

pub const SPARE_AT: usize = 3;

pub const BLOCKS_AT: usize = 4;

pub const STEPS_AT: usize = 6;

pub const TEMPORARIES_AT: usize = 8;

pub const MARKS_AT: usize = 10;

pub const TABLE_AT: usize = MARKS_AT + JOB_LIMIT;

// The places of an entry's parts.
pub const PRIME: usize = 2;

pub const STEPS: usize = 4;

pub const ENTRY_SIZE: usize = 6;

pub const CONTEXT_SIZE: usize = TABLE_AT + ENTRY_SIZE * JOB_LIMIT;

// A block: the cell that it writes, by its expression and row, and how many steps it has.
#[derive(Clone, Copy, Debug, PartialEq, Eq)]
pub struct Entry {
    pub expression: u16,
    pub prime: u16,
    pub steps: u16,
}

pub fn blocks_of(context: &[u8]) -> usize
    requires { length context.now ≡ context_size }
    ensures { Read16 (blocks_in context.now) result }
{
    u16_at(context, BLOCKS_AT) as usize
}

pub fn steps_of(context: &[u8]) -> usize
    requires { length context.now ≡ context_size }
    ensures { Read16 (steps_in context.now) result }
{
    u16_at(context, STEPS_AT) as usize
}

pub fn temporaries_of(context: &[u8]) -> usize
    requires { length context.now ≡ context_size }
    ensures { Read16 (temporaries_in context.now) result }
{
    u16_at(context, TEMPORARIES_AT) as usize
}

pub fn entry_at(context: &[u8], k: usize) -> Entry
    requires { EntryAsks context.now k }
    ensures { result ≡ entry_in context.now k }
{
    let at = TABLE_AT + ENTRY_SIZE * k;
    Entry {
        expression: u16_at(context, at),
        prime: u16_at(context, at + PRIME),
        steps: u16_at(context, at + STEPS),
    }
}

impl Entry {
    pub fn cell(self) -> usize
        ensures { result ≡ entry_cell self }
    {
        ROWS * (self.expression as usize) + (self.prime as usize)
    }
}
