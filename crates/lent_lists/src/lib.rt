// Lists of steps that a caller lends: are their records well formed, has each a step, and the walks over their references.
#![tactic(auto)]

pub mod judge;
pub mod records;
pub mod rewrite;
