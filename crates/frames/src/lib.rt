// The frames of document 01: one frame read, frames counted and stored into tables of packed words, a slice of frames read whole,
// the hexadecimal line of a frame, and a text of such lines read whole.
#![tactic(auto)]

pub mod count;
pub mod frame;
pub mod hex;
pub mod node;
pub mod read;
pub mod rest;
pub mod tables;
pub mod take;
pub mod text;
