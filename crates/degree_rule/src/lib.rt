// `_calculate_im_pols`: the degree rule over the nodes of an admitted pool and the bodies of its expressions.
#![tactic(auto)]

pub mod reading;
pub mod rule;
pub mod tally;
