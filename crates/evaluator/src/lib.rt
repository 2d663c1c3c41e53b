// The evaluator (added by document 01): a list of steps run downwards modulo a number, from given values.
#![tactic(auto)]

pub mod evaluate;
