// `calculate_im_pols` and the choice among its candidates: the degree search over an admitted pool, and from frames.
#![tactic(auto)]

pub mod admitted;
pub mod candidate;
pub mod choose;
pub mod keep;
pub mod search;
