// Cells: records of supplied memory read as intervals, unrounded sums of them, the cell formulas and the joining rules.
#![tactic(auto)]

pub mod cell;
pub mod dividing;
pub mod fault;
pub mod formulas;
mod four;
pub mod laws;
pub mod questions;
pub mod reading;
pub mod rounding_out;
pub mod rules;
mod sums;
pub mod totals;
