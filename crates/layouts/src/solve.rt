// The row formula of a triangular solve, the order in which rows are worked, and the test for a diagonal that holds 0.
ghost use Rattle.std.specs.Prelude.{◌≡◌, ◌+◌, ◌<◌, ◌≤◌};
ghost use Rattle.cells.specs.Cells.{cell_value, total_value, cell_at};
ghost use Rattle.layouts.specs.Orders.{row_at, rows_in_order, first_zero};
ghost use Rattle.layouts.specs.Rows.{solved_from, solved_count, solved_last, solved_sum, EmptyCarriesOn, solve_at};

use crate::filled_part::FilledPart;
use crate::layout::{Layout, Triangular};
use crate::operands::RowTimes;
use crate::side::Side;
use cells::cell::{Cell, EMPTY, Places, Record, Target, Total};
use cells::dividing::{holds_zero, quotient_cell};
use cells::fault::CellFault;
use cells::totals::remainder;
use rounding::rest::Rounding;

// The row of n that is worked at a step: a lower triangle is solved from its first row on, an upper one from its last.
pub fn row_at(side: Side, n: usize, step: usize) -> usize
    ensures { result ≡ row_at side n step }
{
    match side {
        Side::Lower => step,
        Side::Upper => n.saturating_sub(1).saturating_sub(step),
    }
}

// The first row in working order whose diagonal entry is not empty and holds 0.
pub fn first_zero<T: Triangular>(layout: &T) -> Option<usize>
    ensures { result ≡ first_zero (T.Layout.meaning layout.now) (rows_in_order (T.Triangular.half layout.now) (T.Layout.meaning layout.now).rows) }
{
    let n = layout.rows();
    let side = layout.side();
    (0..n)
        .map(|step| row_at(side, n, step))
        .find(|row| holds_zero(layout.entry(*row, *row)))
}

// The rows that are solved before a row.
fn solved_before<T: Triangular>(layout: &T, row: usize) -> Places
    requires { row < (T.Layout.meaning layout.now).rows }
    ensures from { result.from ≡ solved_from (T.Triangular.half layout.now) row }
    ensures count { result.to ≡ result.from + solved_count (T.Triangular.half layout.now) (T.Layout.meaning layout.now).rows row }
    ensures inside { result.to ≤ (T.Layout.meaning layout.now).columns }
{
    match layout.side() {
        Side::Lower => Places { from: 0, to: row },
        Side::Upper => Places {
            from: row + 1,
            to: layout.rows(),
        },
    }
}

// The one of them that is solved last, if there is one.
fn solved_last(side: Side, row: usize) -> usize
    requires { row < 1024 }
    ensures { result ≡ solved_last side row }
{
    match side {
        Side::Lower => row.saturating_sub(1),
        Side::Upper => row + 1,
    }
}

// Σ T_ij·z_j over the rows that are solved before the row, unrounded. Whether one of them is empty is told by the one solved last: an
// empty z_j empties every later row.
fn solved_sum<T: Triangular>(layout: &T, row: usize, column: &[Record]) -> Total
    requires here { row < (T.Layout.meaning layout.now).rows }
    requires empties { EmptyCarriesOn (T.Triangular.half layout.now) (T.Layout.meaning layout.now).rows column.now row }
    ensures { total_value result ≡ solved_sum (T.Triangular.half layout.now) (T.Layout.meaning layout.now) (cell_at column.now) row }
{
    let last = solved_last(layout.side(), row);
    let xs = FilledPart::told_by(column, solved_before(layout, row), last)?;
    RowTimes { layout, row, xs }.sum()
}

// (alpha·x_i − Σ T_ij·z_j)/T_ii at a row of a column that holds z_j at the rows solved before, and x elsewhere. The cell is
// empty where T_ii is, outside the shape too, and where T_ii holds 0, which `first_zero` tells beforehand.
// A column whose rows were worked in order meets the `requires`: a row that comes out filled has filled operands.
pub fn solve_cell<T: Triangular>(
    rounding: &mut Rounding,
    layout: &T,
    alpha: Cell,
    target: Target<'_>,
) -> Result<Record, CellFault>
    requires { EmptyCarriesOn (T.Triangular.half layout.now) (T.Layout.meaning layout.now).rows target.column.now target.row }
    ensures { result ≡ solve_at (T.Triangular.half layout.now) (T.Layout.meaning layout.now) (cell_value alpha) target.entry.column.now target.entry.row }
{
    let Target { column, row } = target;
    if row >= layout.rows() {
        return Ok(EMPTY);
    }
    let sum = remainder(alpha, target.old(), solved_sum(layout, row, column));
    Ok(quotient_cell(rounding, sum, layout.entry(row, row)).map_err(|fault| (row, fault))?)
}
