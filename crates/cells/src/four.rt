// The four products of the bounds of a cell and of unrounded values and the four quotients of a sum by a cell, by value, and
// the least and the greatest of four numbers.
ghost use Rattle.std.specs.Prelude.{◌≡◌, ◌^◌, ◌≤◌, false, ◌*ℤ◌, unsigned_abs};
ghost use Rattle.arithmetic.specs.Four.{least, greatest, products};
ghost use Rattle.arithmetic.specs.Values.{spans_zero};
ghost use Rattle.cells.specs.Quotients.{quotients_in};

use crate::cell::{Extremes, Interval};
use rounding::direction::Direction;
use rounding::numbers::{Divisor, Sums};

// 2^44 stands in the contract of each step down to here: a const parameter has no bound of its own.
fn times(x: i32, y: i64) -> i64
    requires bound { unsigned_abs x ≤ 131071 }
    requires value { unsigned_abs y ≤ 2 ^ 44 }
    ensures { result ≡ x *ℤ y }
{
    x as i64 * y
}

// The four products of the bounds of a cell and the extremes of unrounded values.
pub(crate) fn multiply<const MOST: u64>(a: Interval, b: Extremes<MOST>) -> [i64; 4]
    requires { MOST ≤ 2 ^ 44 }
    ensures { result ≡ products a.lower a.upper b.entry.least b.entry.greatest }
{
    [
        times(a.lower, b.least),
        times(a.lower, b.greatest),
        times(a.upper, b.least),
        times(a.upper, b.greatest),
    ]
}

// The four quotients of the bounds of a sum by those of a cell that does not hold 0.
pub(crate) fn divide(direction: Direction, sums: Sums, by: Interval) -> [i64; 4]
    requires { spans_zero by.lower by.upper ≡ false }
    ensures { result ≡ quotients_in direction sums.least.value sums.greatest.value by.lower by.upper }
{
    let lower = Divisor {
        value: by.lower as i64,
    };
    let upper = Divisor {
        value: by.upper as i64,
    };
    [
        direction.quotient(sums.least, lower),
        direction.quotient(sums.least, upper),
        direction.quotient(sums.greatest, lower),
        direction.quotient(sums.greatest, upper),
    ]
}

// Least and greatest are two, as their definitions are: one function would take the comparison and be no plainer.
pub(crate) fn least(four: [i64; 4]) -> i64
    ensures { result ≡ least four }
{
    four[0].min(four[1]).min(four[2].min(four[3]))
}

pub(crate) fn greatest(four: [i64; 4]) -> i64
    ensures { result ≡ greatest four }
{
    four[0].max(four[1]).max(four[2].max(four[3]))
}
