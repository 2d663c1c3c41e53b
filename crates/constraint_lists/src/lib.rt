// The two lists of the constraint polynomial (`generate_constraint_polynomial`), step3 and step42ns, over tables that hold the pool with the constraint: planned and
// measured while nothing lent is written, and then written.
#![tactic(auto)]

pub mod measure;
pub mod plan;
pub mod write;
