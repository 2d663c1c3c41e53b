// The pool with the constraint polynomial from bytes, as frames.
#![tactic(auto)]

pub mod answer;
pub mod entry;
pub mod members;
