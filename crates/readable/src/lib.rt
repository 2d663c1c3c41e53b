// A list as a person reads it: its steps in infix, each block below its expression as the circuit wrote it.
#![tactic(auto)]

pub mod block;
pub mod literal;
pub mod reference;
pub mod step;
pub mod tree;
