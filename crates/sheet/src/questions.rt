// What working and drafted sheets are asked. The columns answer as they stand, also while a draft stands.
ghost use Rattle.std.specs.Prelude.{◌≡◌, ◌<◌, true, [], ◌∷◌, MatchResult};
ghost use Rattle.cells.specs.Cells.{cell_value};
ghost use Rattle.sheet.specs.Checks.{granted, refused, first_refusal, row_named};
ghost use Rattle.sheet.specs.Memory.{has_cells, column, cells_in};
ghost use Rattle.sheet.specs.Questions.{first_column, one_norm_answer, infinity_norm_answer, largest_answer, smallest_answer, width_answer, middle_answer, enclosed_answer};
ghost use Rattle.sheet.specs.Shapes.{Legal};

use crate::column;
use crate::refusal::{CallName, Refusal};
use crate::shape::Shape;
use cells::cell::{Cell, Record};
use cells::questions;
use cells::reading::cell_at;

// The questions of one sheet: both states hand them out by `ask`, so that each question stands once. They hold the sheet's shape
// and nothing of its memory, which is supplied with each question.
#[derive(Clone, Copy)]
pub struct Questions {
    pub(crate) shape: Shape,
    ghost legal: { Legal shape },
}

impl Questions {
    fn column(self, call: CallName, k: usize, cells: &[Record]) -> Result<&[Record], Refusal>
        ensures { MatchResult result (λ c. (has_cells self.shape cells.now ≡ true) × (k < self.shape.columns) × (c.now ≡ column self.shape cells.now k)) (λ r. first_refusal (first_column self.shape call cells.now k []) granted ≡ refused r) }
    {
        if !self.shape.has_cells(cells) {
            return Err(Refusal::WrongLength { call, column: k });
        }
        if k >= self.shape.columns {
            return Err(Refusal::NoSuchColumn { call, column: k });
        }
        Ok(self.shape.column(cells, k))
    }

    fn cell(self, call: CallName, k: usize, row: usize, cells: &[Record]) -> Result<Cell, Refusal>
        ensures { MatchResult result (λ c. (has_cells self.shape cells.now ≡ true) × (k < self.shape.columns) × (row < self.shape.rows) × (cell_value c ≡ cells_in self.shape cells.now k row)) (λ r. first_refusal (first_column self.shape call cells.now k (row_named self.shape call k row ∷ [])) granted ≡ refused r) }
    {
        let column = self.column(call, k, cells)?;
        if row >= self.shape.rows {
            return Err(Refusal::NoSuchRow {
                call,
                column: k,
                row,
            });
        }
        Ok(cell_at(column, row))
    }

    // The sum of the sizes of a column's cells, in steps, a cell's size being the greater of its bounds' sizes. This question and the
    // next three answer none exactly where a cell of the column is empty.
    pub fn one_norm(self, k: usize, cells: &[Record]) -> Result<Option<u32>, Refusal>
        ensures { result ≡ one_norm_answer self.shape cells.now k }
    {
        Ok(column::one_norm(self.column(CallName::OneNorm, k, cells)?))
    }

    // The greatest of these sizes.
    pub fn infinity_norm(self, k: usize, cells: &[Record]) -> Result<Option<u32>, Refusal>
        ensures { result ≡ infinity_norm_answer self.shape cells.now k }
    {
        Ok(column::infinity_norm(self.column(CallName::InfinityNorm, k, cells)?))
    }

    // The greatest size, and the first row that has it.
    pub fn largest(self, k: usize, cells: &[Record]) -> Result<Option<(u32, usize)>, Refusal>
        ensures { result ≡ largest_answer self.shape cells.now k }
    {
        Ok(column::largest(self.column(CallName::Largest, k, cells)?))
    }

    // The least of the lesser sizes of a cell's bounds, and the first row that has it.
    pub fn smallest(self, k: usize, cells: &[Record]) -> Result<Option<(u32, usize)>, Refusal>
        ensures { result ≡ smallest_answer self.shape cells.now k }
    {
        Ok(column::smallest(self.column(CallName::Smallest, k, cells)?))
    }

    // Upper minus lower of one cell, in steps; none where it is empty.
    pub fn width(self, k: usize, row: usize, cells: &[Record]) -> Result<Option<i32>, Refusal>
        ensures { result ≡ width_answer self.shape cells.now k row }
    {
        Ok(questions::width(self.cell(CallName::Width, k, row, cells)?))
    }

    // Half the sum of its bounds, rounded down; none where it is empty.
    pub fn middle(self, k: usize, row: usize, cells: &[Record]) -> Result<Option<i32>, Refusal>
        ensures { result ≡ middle_answer self.shape cells.now k row }
    {
        Ok(questions::middle(self.cell(CallName::Middle, k, row, cells)?))
    }

    // Whether each cell of column k is inside the one at its row of column x; an empty cell is inside every one.
    pub fn enclosed(self, k: usize, x: usize, cells: &[Record]) -> Result<bool, Refusal>
        ensures { result ≡ enclosed_answer self.shape cells.now k x }
    {
        let call = CallName::Enclosed;
        let inner = self.column(call, k, cells)?;
        if x >= self.shape.columns {
            return Err(Refusal::NoSuchColumn { call, column: x });
        }
        Ok(column::enclosed(inner, self.shape.column(cells, x)))
    }
}
