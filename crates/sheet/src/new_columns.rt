// The new columns whose cells depend on no other new cell.
ghost use Rattle.std.specs.Prelude.{get_or};
ghost use Rattle.cells.specs.Cells.{cell_at};
ghost use Rattle.cells.specs.Rules.{Rule};

use crate::rows::Rows;
use cells::cell::Record;
use cells::reading::cell_at;
use cells::rules::JoinRule;

// Two columns joined by a rule, row by row.
#[derive(Clone, Copy)]
pub(crate) struct Joined<'a, R> {
    pub(crate) rule: &'a R,
    pub(crate) column: &'a [Record],
    pub(crate) other: &'a [Record],
}

impl<R: JoinRule> Rows for Joined<'_, R> {
    ghost new = { λ c row. Rule.joined (R.JoinRule.rule c.rule.now) (cell_at c.column.now row) (cell_at c.other.now row) };

    fn record(&self, row: usize) -> Record {
        Record::from(
            self.rule
                .join(cell_at(self.column, row), cell_at(self.other, row)),
        )
    }
}

// A column whose cells are read at the places that a list names.
#[derive(Clone, Copy)]
pub(crate) struct Permuted<'a> {
    pub(crate) column: &'a [Record],
    pub(crate) order: &'a [usize],
}

impl Rows for Permuted<'_> {
    ghost new = { λ c row. cell_at c.column.now (get_or c.order.now row 0) };

    fn record(&self, row: usize) -> Record {
        // the list has a place for every row of the column
        let old = self.order.get(row).copied().unwrap_or(0);
        Record::from(cell_at(self.column, old))
    }
}
