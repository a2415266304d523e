// The script of a replay, read line by line: words, numbers, cells and names, and the lines that are made of them.
// docs/REPLAY.md has the format.
#![tactic(auto)]

pub mod line;
mod numbers;
pub mod reading;
pub mod words;
