// Where the polynomial records stand in their sections, and how wide the sections are (document 01, module 4), on plain number slices.
#![tactic(auto)]

mod groups;
pub mod map_section;
pub mod section;
