// Generation on lent bytes: requests served into a context and its list, and builds.
#![tactic(auto)]

pub mod asked;
pub mod build;
pub mod commit;
pub mod serve;
pub mod store;
