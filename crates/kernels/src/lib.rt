// The sums of products over the storage layouts, and whole calls of a sheet, as functions that C calls: what the benchmark in bench/
// times. A slice crosses as a pointer and a length.
#![tactic(auto)]

pub mod answer;
pub mod asked;
mod calls;
mod columns;
mod operands;
mod rows;
mod square;
pub mod sum;
mod telling;
mod whole;
