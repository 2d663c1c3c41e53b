// Kinds, literals and references, and the records that hold them in a list of bytes (document 01, module 1).
#![tactic(auto)]

pub mod big_endian;
pub mod kind;
pub mod literal;
pub mod reference;
pub mod refusal;
pub mod step;
pub mod step_op;
