// Pools: admission, and ranks of expressions.
#![tactic(auto)]

pub mod admit;
pub mod cycle;
pub mod entries;
pub mod number;
pub mod rank;
pub mod shape;
pub mod uses;
pub mod words;
