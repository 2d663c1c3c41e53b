// Generation (document 01, module 3): the steps of expressions, written into a lent list.
#![tactic(auto)]

pub mod block;
pub mod count;
pub mod eval;
pub mod operation;
pub mod order;
pub mod out;
pub mod source;
pub mod words;
