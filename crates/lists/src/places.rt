// Where a record's parts stand, from its first byte on: a walk reads those that it needs, not whole records.
use kinds::reference::REFERENCE_SIZE;

pub const COUNT: usize = 1;

pub const DEST: usize = 4;

pub const S0: usize = DEST + REFERENCE_SIZE;

pub const S1: usize = S0 + REFERENCE_SIZE;

pub const S2: usize = S1 + REFERENCE_SIZE;

// And where those of a reference stand, from its own; its kind is the first.
pub const PRIME: usize = 1;

pub const ID: usize = 2;

pub const DIM: usize = 4;

pub const P: usize = 6;
