// The dimension of an expression: `get_exp_dim`.
#![tactic(auto)]

pub mod dim;
pub mod leaf;
