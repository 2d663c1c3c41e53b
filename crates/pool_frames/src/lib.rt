// A pool that stands in tables, written back as the frames of document 01, each behind its length.
#![tactic(auto)]

pub mod frame;
pub mod pool;
