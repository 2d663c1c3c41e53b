// Lists of step records that a caller lends: where a record's parts stand, and are they well formed?
#![tactic(auto)]

pub mod places;
pub mod records;
