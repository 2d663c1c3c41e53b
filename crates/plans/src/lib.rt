// Plans: what `map` is asked, as a lent byte record; is it well formed, is what it names there, do its counts agree, do its records fit.
#![tactic(auto)]

pub mod agree;
pub mod check;
pub mod count;
pub mod layout;
pub mod there;
