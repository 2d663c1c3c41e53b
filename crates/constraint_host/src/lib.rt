// The constraint polynomial for a program in another language: its pieces, and all of it in one call, each answering with a number: 0 where it was done, else the refusal's, and then nothing
// lent has changed.
#![tactic(auto)]

pub mod extend;
pub mod pieces;
pub mod whole;
