// Fixing (document 01, module 4): the references of a segment's three lists rewritten for a plan, and the second walk for the verifier's query code.
#![tactic(auto)]

pub mod fix_prover_code;
pub mod rewrite;
pub mod rules;
pub mod temporaries;
