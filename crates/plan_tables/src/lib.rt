// The tables that a plan gives to the walks over lists and to the answer of `map`.
#![tactic(auto)]

pub mod columns;
pub mod exp2pol;
pub mod numbers;
pub mod offsets;
pub mod packed;
pub mod qs;
pub mod rules;
pub mod trees;
