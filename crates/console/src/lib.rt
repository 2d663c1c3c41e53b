// What the programs share: a text read from standard input into tables, and a page of output.
#![tactic(auto)]

pub mod page;
pub mod read;
