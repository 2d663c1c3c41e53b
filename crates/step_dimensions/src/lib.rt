// The dimensions of one step of a list: of each source that it needs, and of its destination.
#![tactic(auto)]

pub mod known;
pub mod lent;
pub mod rule;
pub mod source;
pub mod step;
pub mod write;
