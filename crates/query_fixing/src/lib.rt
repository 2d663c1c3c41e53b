// The second fixing walk (document 01, module 4), for the verifier's query code: each cm becomes tree1 to tree4.
#![tactic(auto)]

pub mod fix_query_code;
pub mod trees;
