// What the layouts share of entries: the cell [0, 0], and which cells are filled.
ghost use Rattle.std.specs.Prelude.{◌≡◌, true};
ghost use Rattle.arithmetic.specs.Values.{bounds, zeros};
ghost use Rattle.cells.specs.Cells.{cell_value, read_as};
ghost use Rattle.layouts.specs.Filled.{is_filled};

use cells::cell::{Cell, Interval, Record};

pub(crate) fn zero() -> Cell
    ensures { cell_value result ≡ zeros }
{
    Some(Interval { lower: 0, upper: 0 })
}

// `is_some` by the name that the definitions have for it, so that a chain's closure tells what it tests.
pub(crate) fn is_filled(cell: Cell) -> bool
    ensures { result ≡ is_filled (cell_value cell) }
{
    cell.is_some()
}

// What a record reads as that is known to be filled: it is not tested again.
pub(crate) fn filled_bounds(record: Record) -> Interval
    requires { is_filled (read_as «record») ≡ true }
    ensures { bounds result.lower result.upper ≡ read_as «record» }
{
    Interval {
        lower: record.lower,
        upper: record.upper,
    }
}
