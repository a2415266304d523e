// Layouts: the storage schemes of matrices, each by the matrix that it means, and the row formulas over any of them.
#![tactic(auto)]

pub mod band;
pub mod dense;
mod entries;
pub mod figures;
mod filled_part;
pub mod laws;
pub mod layout;
pub mod lent;
mod lines;
mod operands;
pub mod packed;
pub mod product;
pub mod refusal;
pub mod side;
pub mod solve;
pub mod sweep;
pub mod symmetric;
pub mod transposed;
pub mod triangle;
pub mod unit_diagonal;
pub mod vector;
