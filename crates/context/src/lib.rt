// A context: lent bytes that hold marks, counters and the table of blocks, checked, read into tables and written back.
#![tactic(auto)]

pub mod check;
pub mod layout;
pub mod load;
pub mod store;
