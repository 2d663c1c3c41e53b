// What the program `steps` says to what it was fed: the answer to the whole text, and the lines that it prints, one by one.
#![tactic(auto)]

pub mod conclude;
pub mod lines;
