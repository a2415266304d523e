// A sum that is divided by a whole number and rounded out, or kept as it is: the record of the cell, or the fault.
ghost use Rattle.std.specs.Prelude.{◌≡◌};
ghost use Rattle.arithmetic.specs.Values.{rounded};
ghost use Rattle.cells.specs.Cells.{total_value, sum_value};
ghost use Rattle.cells.specs.Faults.{kept};

use crate::cell::{EMPTY, Record, Sum, Total};
use rounding::fault::{Bound, RoundingFault};
use rounding::numbers::Divisor;
use rounding::rest::Rounding;
use rounding::rest::dividing::fitting;

// A sum divided by a whole number, its least value rounded down and its greatest up.
pub fn round_out(rounding: &mut Rounding, sum: Sum, by: Divisor) -> Result<Record, RoundingFault>
    ensures { result ≡ kept (rounded by.value (sum_value sum)) }
{
    let Some(sums) = sum else {
        return Ok(EMPTY);
    };
    Ok(Record::from(rounding.outward(sums, by)?))
}

// A total that is in steps already.
pub(crate) fn keep(total: Total) -> Result<Record, RoundingFault>
    ensures { result ≡ kept (total_value total) }
{
    let Some(bounds) = total else {
        return Ok(EMPTY);
    };
    let lower = fitting(bounds.least, Bound::Lower)?;
    let upper = fitting(bounds.greatest, Bound::Upper)?;
    Ok(Record { lower, upper })
}
