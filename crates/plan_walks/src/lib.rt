// The walks over a segment's lists by a plan: from frames and a plan's record to lists that are fixed, made ready for queries, or have their dimensions.
#![tactic(auto)]

mod cms;
pub mod dimension;
pub mod fix;
pub mod query;
pub mod walk;
