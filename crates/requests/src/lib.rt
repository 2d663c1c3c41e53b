// Requests over tables: the blocks that they ask for, in order, and these blocks made.
#![tactic(auto)]

pub mod generate;
pub mod last;
pub mod make;
pub mod place;
pub mod plan;
pub mod run;
pub mod whole;
