// Builds over tables: the blocks of a context, the three lists of a build, and a result's copy put into a block.
#![tactic(auto)]

pub mod blocks;
pub mod build;
pub mod flags;
pub mod result;
