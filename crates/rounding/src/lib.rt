// Rounding: one division of an unrounded sum in a direction that rests at down, and the limit that a bound keeps to.
#![tactic(auto)]

pub mod direction;
pub mod fault;
pub mod numbers;
pub mod rest;
