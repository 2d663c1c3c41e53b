// A list of steps run downwards modulo a number, over tables: are its records well formed, does it run, and which cells does it write?
#![tactic(auto)]

pub mod compute;
pub mod presence;
pub mod records;
pub mod run;
