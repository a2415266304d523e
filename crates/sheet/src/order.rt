// The rows that a call works out, in the order in which it does.
ghost use Rattle.std.specs.Prelude.{◌≡◌};
ghost use Rattle.sheet.specs.WorkingOrders.{steps, row_of};

use layouts::side::Side;
use layouts::solve::row_at;

#[derive(Clone, Copy)]
pub(crate) enum WorkingOrder {
    // one row alone
    One { row: usize },
    // as many rows as are told, from row 0 on: rising for the lower side, falling for the upper
    All { side: Side, rows: usize },
}

impl WorkingOrder {
    pub(crate) fn steps(self) -> usize
        ensures { result ≡ steps self }
    {
        match self {
            WorkingOrder::One { .. } => 1,
            WorkingOrder::All { rows, .. } => rows,
        }
    }

    // The row that is worked at a step.
    pub(crate) fn row(self, step: usize) -> usize
        ensures { result ≡ row_of self step }
    {
        match self {
            WorkingOrder::One { row } => row,
            WorkingOrder::All { side, rows } => row_at(side, rows, step),
        }
    }
}
