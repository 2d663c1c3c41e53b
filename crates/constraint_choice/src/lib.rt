// The choice of the constraint polynomial from frames and two contexts: read, judged and searched, with the pool and its constraint left in the caller's own tables. No list
// is looked at or written.
#![tactic(auto)]

pub mod admitted;
pub mod answer;
pub mod entry;
