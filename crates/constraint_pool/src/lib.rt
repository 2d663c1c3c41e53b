// The constraint polynomial's expression, added to a pool that stands in tables.
#![tactic(auto)]

pub mod copy;
pub mod entry;
pub mod extend;
pub mod join;
pub mod judge;
pub mod measure;
