// The records of a plan: `map`, part by part.
#![tactic(auto)]

pub mod all;
pub mod column;
pub mod dim;
pub mod lookups;
pub mod products;
pub mod records;
pub mod rest;
