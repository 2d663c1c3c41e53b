// One step of the evaluator: its sources read, its value computed and stored.
#![tactic(auto)]

pub mod step;
