// The plan of a pool, from frames and a plan's record: every refusal in document 01's order, or the records as `map` makes them.
#![tactic(auto)]

pub mod answer;
pub mod frames_plan;
pub mod pool_plan;
mod records;
mod shape;
