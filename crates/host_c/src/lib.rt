// Every function that a program in another language calls, under the names of include/enonkasse.h: each calls the library's function of that name and says what
// that one says.
#![tactic(auto)]

pub mod constraint;
pub mod generation;
pub mod plan;
pub mod search;
pub mod structs;
