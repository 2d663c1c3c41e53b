// What the program `steps` prints, as bytes of text: the line of a step, of the counter, of a refusal.
#![tactic(auto)]

pub mod line;
