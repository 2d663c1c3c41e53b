// Two pieces of the constraint polynomial (`generate_constraint_polynomial`) on a lent context: members marked at both rows, and the closing product.
#![tactic(auto)]

pub mod close;
pub mod mark;
