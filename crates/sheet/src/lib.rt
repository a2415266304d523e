// The sheet: columns of cells in supplied memory, the calls that work on them through a draft, and what every list of calls keeps.
#![tactic(auto)]

mod column;
mod formulas;
pub mod laws;
mod memory;
mod new_columns;
mod order;
pub mod permutation;
pub mod questions;
pub mod refusal;
mod rows;
pub mod shape;
pub mod states;
pub mod words;
mod working_out;
