// One division in a direction, the limit of a bound, and a pair of sums rounded outward.
ghost use Rattle.std.specs.Prelude.{◌≡◌, ◌^◌, ◌<◌, ◌/◌, ◌%◌, ◌==◌, pos, neg_ℤ, ◌≢◌, unsigned_abs, int_lt, not};
ghost use mathlib.Core.Bool.{beq};
ghost use Rattle.arithmetic.specs.Rounding.{floor, ceiling};
ghost use Rattle.arithmetic.specs.Values.{lesser, greater};
ghost use Rattle.rounding.specs.declared.direction.Direction.TheVariants.{Down};
ghost use Rattle.rounding.specs.Outward.{rounded_in, fitted, rounded_out};

use crate::direction::Direction;
use crate::fault::{Bound, RoundingFault};
use crate::numbers::{Divisor, Sums, Unrounded};
use crate::rest::Rounding;
use crate::rest::guard::Upward;

// The limit M: no bound of a cell is beyond it in size.
pub const LIMIT: i32 = 131_071;

// A quotient by its size, rounded towards zero, and whether that is exact. The processor divides sizes faster than signed numbers, and
// where a quotient is wanted rounded both ways, both come from one division.
#[derive(Clone, Copy)]
struct Quotient {
    value: Unrounded,
    by: Divisor,
    size: i64,
    exact: bool,
    ghost is_size: { size ≡ pos (unsigned_abs value.value / unsigned_abs by.value) },
    ghost is_exact: { exact ≡ (unsigned_abs value.value % unsigned_abs by.value == 0) },
    ghost small: { unsigned_abs size < 2 ^ 62 },
}

impl Quotient {
    fn of(value: Unrounded, by: Divisor) -> Quotient
        ensures { (result.value ≡ value) × (result.by ≡ by) }
    {
        let (size, divisor) = (value.value.unsigned_abs(), by.value.unsigned_abs());
        Quotient {
            value,
            by,
            size: (size / divisor) as i64,
            exact: size % divisor == 0,
        }
    }

    // Whether one of the two numbers is below 0, and not the other.
    fn signs_differ(self) -> bool
        ensures { result ≡ not (beq (int_lt self.value.value (pos 0)) (int_lt self.by.value (pos 0))) }
    {
        (self.value.value < 0) != (self.by.value < 0)
    }

    fn opposite_size(self) -> i64
        ensures is { result ≡ neg_ℤ self.size }
        ensures small { unsigned_abs result < 2 ^ 62 }
    {
        -self.size
    }

    // The greatest whole number that is at most the quotient.
    fn floor(self) -> i64
        ensures { result ≡ floor self.value.value self.by.value }
    {
        if !self.signs_differ() {
            self.size
        } else if self.exact {
            self.opposite_size()
        } else {
            self.opposite_size() - 1
        }
    }

    // The least whole number that is at least the quotient.
    fn ceiling(self) -> i64
        ensures { result ≡ ceiling self.value.value self.by.value }
    {
        if self.signs_differ() {
            self.opposite_size()
        } else if self.exact {
            self.size
        } else {
            self.size + 1
        }
    }
}

impl Direction {
    // The quotient, rounded down or up. A switch and no closure: the direction is a state, which the guard turns and puts back.
    pub fn quotient(self, value: Unrounded, by: Divisor) -> i64
        ensures { result ≡ rounded_in self value.value by.value }
    {
        let quotient = Quotient::of(value, by);
        match self {
            Direction::Down => quotient.floor(),
            Direction::Up => quotient.ceiling(),
        }
    }
}

impl<'a> Upward<'a> {
    // The quotient, rounded as the guarded direction says.
    pub fn quotient(&self, value: Unrounded, by: Divisor) -> i64
        ensures { result ≡ rounded_in self.now.0.now value.value by.value }
    {
        self.direction().quotient(value, by)
    }
}

// A bound that a cell can hold, or the fault that names it.
pub fn fitting(value: i64, bound: Bound) -> Result<i32, RoundingFault>
    ensures { result ≡ fitted bound value }
{
    if value < -(LIMIT as i64) || value > LIMIT as i64 {
        return Err(RoundingFault { bound });
    }
    Ok(value as i32)
}

// A pair of sums, in rising order, with the one first that has the lesser quotient: a negative divisor turns the pair round.
fn by_quotient(sums: Sums, by: Divisor) -> Sums
    ensures least { result.least.value ≡ lesser by.value sums.least.value sums.greatest.value }
    ensures greatest { result.greatest.value ≡ greater by.value sums.least.value sums.greatest.value }
{
    if by.value < 0 {
        Sums {
            least: sums.greatest,
            greatest: sums.least,
        }
    } else {
        sums
    }
}

impl Rounding {
    // The least quotient rounded down and the greatest up, each within the limit, or the fault of the first that is not.
    // The direction is down again on every way out, the early returns too.
    pub fn outward(&mut self, sums: Sums, by: Divisor) -> Result<(i32, i32), RoundingFault>
        ensures answer { result ≡ rounded_out by.value sums.least.value sums.greatest.value }
        ensures rests { self.new.direction ≡ Down }
    {
        let turned = by_quotient(sums, by);
        let lower = fitting(self.direction.quotient(turned.least, by), Bound::Lower)?;
        let up = Upward::new(&mut self.direction);
        let upper = fitting(up.quotient(turned.greatest, by), Bound::Upper)?;
        Ok((lower, upper))
    }
}
