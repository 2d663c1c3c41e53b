// `get_exp_dim` of the degree search: the full degree of each node of an admitted pool, computed once and capped where no degree limit can tell.
#![tactic(auto)]

pub mod degree;
pub mod table;
