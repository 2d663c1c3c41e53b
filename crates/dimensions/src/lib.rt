// The dimensions of a segment's lists (document 01, module 4): `set_code_dimensions` and `set_code_dimensions_first`.
#![tactic(auto)]

mod pass;
mod segment;
pub mod set_code_dimensions;
