// Both lists of the constraint polynomial and the frames of its pool, over tables that hold the pool with the constraint: all of it or nothing.
#![tactic(auto)]

pub mod answer;
pub mod fit;
pub mod make;
pub mod second;
