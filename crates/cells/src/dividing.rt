// A sum divided by a cell: the least of the four quotients rounded down, the greatest up.
ghost use Rattle.std.specs.Prelude.{◌≡◌, false};
ghost use Rattle.arithmetic.specs.Values.{spans_zero, bounds, quotients, least_quotient, greatest_quotient};
ghost use Rattle.rounding.specs.declared.direction.Direction.TheVariants.{Down, Up};
ghost use Rattle.rounding.specs.declared.fault.Bound.TheVariants.{Lower, Upper};
ghost use Rattle.rounding.specs.Outward.{fitted};
ghost use Rattle.cells.specs.Cells.{cell_value, sum_value};
ghost use Rattle.cells.specs.Faults.{kept};
ghost use Rattle.cells.specs.Quotients.{zero_in, divided};

use crate::cell::{Cell, EMPTY, Interval, Record, Sum};
use crate::four::{divide, greatest, least};
use rounding::direction::Direction;
use rounding::fault::{Bound, RoundingFault};
use rounding::numbers::Sums;
use rounding::rest::Rounding;
use rounding::rest::dividing::fitting;
use rounding::rest::guard::Upward;

fn spans_zero(i: Interval) -> bool
    ensures { result ≡ spans_zero i.lower i.upper }
{
    i.lower <= 0 && 0 <= i.upper
}

// Whether a cell is not empty and holds 0.
pub fn holds_zero(cell: Cell) -> bool
    ensures { result ≡ zero_in (cell_value cell) }
{
    cell.is_some_and(spans_zero)
}

// The least of the four quotients rounded down and the greatest up, where a cell can hold them, the lower one looked at first.
fn divide_out(rounding: &mut Rounding, sums: Sums, by: Interval) -> Result<Record, RoundingFault>
    requires { spans_zero by.lower by.upper ≡ false }
    ensures { result ≡ kept (quotients (bounds sums.least.value sums.greatest.value) (bounds by.lower by.upper)) }
{
    let lower = fitting(least(divide(rounding.direction, sums, by)), Bound::Lower)?;
    let up = Upward::new(&mut rounding.direction);
    let upper = fitting(greatest(divide(up.direction(), sums, by)), Bound::Upper)?;
    Ok(Record { lower, upper })
}

// A sum divided by a cell: empty for an empty one, and for a divisor that holds 0.
pub fn quotient_cell(rounding: &mut Rounding, sum: Sum, by: Cell) -> Result<Record, RoundingFault>
    ensures { result ≡ kept (divided (sum_value sum) (cell_value by)) }
{
    let (Some(sums), Some(divisor)) = (sum, by) else {
        return Ok(EMPTY);
    };
    if spans_zero(divisor) {
        return Ok(EMPTY);
    }
    divide_out(rounding, sums, divisor)
}
