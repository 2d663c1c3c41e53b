// Words on a lent page: texts and numbers, the sign of an operation, a refusal as a sentence, what stands around a list.
#![tactic(auto)]

pub mod around;
pub mod refusal;
pub mod sign;
pub mod text;
