// Unrounded values: products of cells and their sums.
// The sizes say why no word overflows: a product is at most 131,071 squared, 1,024 of them stay below 2^44, a cell times
// that below 2^61, and a product times the scale below 2^51.
ghost use Rattle.std.specs.Prelude.{◌≡◌, ◌+◌, ◌*◌, ◌^◌, ◌<◌, ◌≤◌, pos, ◌+ℤ◌, ◌*ℤ◌, ◌≤ℤ◌, ◌<ℤ◌, unsigned_abs};
ghost use Rattle.arithmetic.specs.Values.{bounds, times, plus, opposite, rescaled, Small};
ghost use Rattle.cells.specs.Cells.{extremes};

use crate::cell::{Extremes, Interval, Product, Scale, Totals};
use crate::four::{greatest, least, multiply};
use rounding::numbers::{Divisor, Sums, Unrounded};

// Of a product at a scale that is finer by the number of steps: at most 2^51.
pub(crate) type Finer = Extremes<2_251_799_813_685_248>;

// Of a cell times a sum of products: below 2^61.
pub(crate) type Weighted = Extremes<2_305_790_233_058_212_864>;

impl Interval {
    // From the least to the greatest of the four products of bounds.
    pub(crate) fn times<const MOST: u64, const ALL: u64>(self, b: Extremes<MOST>) -> Extremes<ALL>
        requires factor { MOST ≤ 2 ^ 44 }
        requires all { 131071 * MOST ≤ ALL }
        ensures { extremes result ≡ times (bounds self.lower self.upper) (extremes b.entry) }
    {
        let four = multiply(self, b);
        Extremes {
            least: least(four),
            greatest: greatest(four),
        }
    }
}

// The square of the number of steps.
fn square(scale: Scale) -> i64
    ensures is { result ≡ scale.steps *ℤ scale.steps }
    ensures positive { pos 0 <ℤ result }
    ensures few { result ≤ℤ pos 10000000000 }
{
    scale.steps * scale.steps
}

// A bound of a product at a scale that is finer by the number of steps.
fn finer(a: i64, scale: Scale) -> i64
    requires { unsigned_abs a ≤ 17179607041 }
    ensures is { result ≡ a *ℤ scale.steps }
    ensures size { unsigned_abs result ≤ 2 ^ 51 }
{
    a * scale.steps
}

impl Scale {
    // The divisor that brings a product of two cells back to steps.
    pub(crate) fn once(self) -> Divisor
        ensures { result.value ≡ self.steps }
    {
        Divisor { value: self.steps }
    }

    // The divisor that brings a product of three cells back to steps.
    pub fn squared(self) -> Divisor
        ensures { result.value ≡ self.steps *ℤ self.steps }
    {
        Divisor {
            value: square(self),
        }
    }
}

impl From<Interval> for Extremes<131_071> {
    ghost from_gives = { λ i r. extremes r ≡ bounds i.lower i.upper };

    fn from(i: Interval) -> Extremes<131_071> {
        Extremes {
            least: i.lower as i64,
            greatest: i.upper as i64,
        }
    }
}

impl Product {
    pub(crate) fn of(a: Interval, b: Interval) -> Product
        ensures { extremes result ≡ times (bounds a.lower a.upper) (bounds b.lower b.upper) }
    {
        a.times(Extremes::from(b))
    }

    // The same at a scale that is finer by the number of steps.
    pub(crate) fn scaled(self, scale: Scale) -> Finer
        ensures { extremes result ≡ rescaled scale.steps (extremes self) }
    {
        Extremes {
            least: finer(self.least, scale),
            greatest: finer(self.greatest, scale),
        }
    }
}

impl Totals {
    // The sum of no terms.
    pub const ZERO: Totals = Extremes {
        least: 0,
        greatest: 0,
    };

    // One term more.
    pub(crate) fn with<const MOST: u64>(self, term: Extremes<MOST>) -> Totals
        requires { Small 17591917609984 (plus (extremes self) (extremes term)) }
        ensures { extremes result ≡ plus (extremes self) (extremes term.entry) }
    {
        Extremes {
            least: self.least + term.least,
            greatest: self.greatest + term.greatest,
        }
    }

    pub(crate) fn negated(self) -> Totals
        ensures { extremes result ≡ opposite (extremes self) }
    {
        Extremes {
            least: -self.greatest,
            greatest: -self.least,
        }
    }
}

// A sum of two unrounded values that is ready to be divided.
pub(crate) fn added<const A: u64, const B: u64>(a: Extremes<A>, b: Extremes<B>) -> Sums
    requires { A + B < 2 ^ 62 }
    ensures least { result.least.value ≡ a.entry.least +ℤ b.entry.least }
    ensures greatest { result.greatest.value ≡ a.entry.greatest +ℤ b.entry.greatest }
{
    Sums {
        least: Unrounded {
            value: a.least + b.least,
        },
        greatest: Unrounded {
            value: a.greatest + b.greatest,
        },
    }
}
