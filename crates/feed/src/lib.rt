// A text of frames read piece by piece: lines are taken into the tables as they end, and only the line that has not ended is kept.
#![tactic(auto)]

pub mod feed;
