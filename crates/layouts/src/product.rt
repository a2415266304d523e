// The row formula of a product over any layout.
ghost use Rattle.std.specs.Prelude.{◌≡◌};
ghost use Rattle.cells.specs.Cells.{cell_value, total_value, cell_at};
ghost use Rattle.layouts.specs.Rows.{row_sum, product_at};

use crate::layout::Layout;
use crate::operands::RowTimes;
use crate::vector::Vector;
use cells::cell::{Factors, Record, Target, Total, Totals};
use cells::fault::CellFault;
use cells::rounding_out::round_out;
use cells::totals::weighted;
use rounding::rest::Rounding;

// Σ L_ij·x_j over all columns of the layout, unrounded.
// Compiled as a function by itself it asks the layout for its figures again in each row, which is most of the work where x has an empty
// cell: hence the hint. Of a layout without columns, as one with unfit figures is, no row is asked for.
#[inline(always)]
pub fn row_sum<L: Layout>(layout: &L, row: usize, xs: Vector<'_>) -> Total
    ensures { total_value result ≡ row_sum (L.Layout.meaning layout.now) (cell_at xs.entry.run.now) row }
{
    let columns = layout.columns();
    let xs = xs.first(columns)?;
    if columns == 0 {
        return Some(Totals::ZERO);
    }
    RowTimes { layout, row, xs }.sum()
}

// beta·r + alpha·Σ L_ij·x_j over all columns of the layout, r being the cell at the row of a column.
pub fn product_cell<L: Layout>(
    rounding: &mut Rounding,
    factors: Factors,
    layout: &L,
    target: Target<'_>,
    xs: Vector<'_>,
) -> Result<Record, CellFault>
    ensures { result ≡ product_at factors.scale.steps (L.Layout.meaning layout.now) (cell_value factors.alpha) (cell_value factors.beta) target.entry.column.now target.entry.row xs.entry.run.now }
{
    let sum = weighted(factors, target.old(), row_sum(layout, target.row, xs));
    Ok(round_out(rounding, sum, factors.scale.squared()).map_err(|fault| (target.row, fault))?)
}
