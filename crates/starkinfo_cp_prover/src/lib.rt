// `generate_constraint_polynomial`: from frames, identities and two contexts to the chosen set, the pool with the constraint, and the lists step3 and step42ns.
#![tactic(auto)]

pub mod answer;
pub mod entry;
