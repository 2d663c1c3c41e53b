// `map`: from frames and a plan's record to its whole answer.
#![tactic(auto)]

pub mod map;
mod parts;
mod put;
