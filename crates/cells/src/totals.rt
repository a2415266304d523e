// Sums of products over any operands, and the sums that the formulas divide.
ghost use Rattle.std.specs.Prelude.{◌≡◌, ℕ, ◌+◌, ◌-◌, ◌<◌, ◌≤◌};
ghost use Rattle.arithmetic.specs.Values.{Value, times, plus, Small};
ghost use Rattle.cells.specs.Cells.{cell_value, total_value, sum_value};
ghost use Rattle.cells.specs.Formulas.{sum_of_products, weighted_sum, blended_sum, remainder_sum};

use crate::cell::{Cell, Factors, Places, Product, Sum, Total, Totals};
use crate::sums::{Weighted, added};

// What a sum of products is taken over: two cells at each place. One loop then serves every formula. It is a trait and no closure, since
// its ghost members name the operands, and a contract can then be an equation.
pub trait Operands {
    ghost lefts: { Self → ℕ → Value };

    ghost rights: { Self → ℕ → Value };

    // the places that are asked for
    ghost has: { Self → ℕ → Type 0 };

    fn left(&self, place: usize) -> Cell
        requires { has self.now place }
        ensures { cell_value result ≡ lefts self.now place };

    fn right(&self, place: usize) -> Cell
        requires { has self.now place }
        ensures { cell_value result ≡ rights self.now place };
}

// Σ x_j·y_j over the places, unrounded. At most 1,024 products are added, so no word overflows.
pub fn sum_of_products<O: Operands>(operands: &O, places: Places) -> Total
    requires { (place : ℕ) → places.from ≤ place → place < places.to → O.Operands.has operands.now place }
    ensures { total_value result ≡ sum_of_products (O.Operands.lefts operands.now) (O.Operands.rights operands.now) places.from (places.to - places.from) }
{
    let mut sofar = Totals::ZERO;
    // a `for` and no `try_fold`: why no word overflows is an invariant of the loop, and a closure has none
    for j in places.from..places.to {
        let term = Product::of(operands.left(j)?, operands.right(j)?);
        sofar = sofar.with(term);
    }
    Some(sofar)
}

// One product more, for sums that are worked on side by side. The sum holds at most 1,023 products before.
pub fn add_product(sofar: Total, x: Cell, y: Cell) -> Total
    requires { Small 17574738002943 (total_value sofar) }
    ensures is { total_value result ≡ plus (total_value sofar) (times (cell_value x) (cell_value y)) }
    ensures size { (n : ℕ) → Small n (total_value sofar) → Small (n + 17179607041) (total_value result) }
{
    Some(sofar?.with(Product::of(x?, y?)))
}

// beta·r + alpha·Σ, at the scale of a product of three cells.
pub fn weighted(factors: Factors, old: Cell, total: Total) -> Sum
    ensures { sum_value result ≡ weighted_sum factors.scale.steps (cell_value factors.alpha) (cell_value factors.beta) (cell_value old) (total_value total) }
{
    let kept = Product::of(factors.beta?, old?).scaled(factors.scale);
    let worked: Weighted = factors.alpha?.times(total?);
    Some(added(kept, worked))
}

// alpha·x + beta·r, at the scale of a product of two cells.
pub(crate) fn blended(factors: Factors, x: Cell, old: Cell) -> Sum
    ensures { sum_value result ≡ blended_sum (cell_value factors.alpha) (cell_value factors.beta) (cell_value x) (cell_value old) }
{
    let worked = Product::of(factors.alpha?, x?);
    let kept = Product::of(factors.beta?, old?);
    Some(added(worked, kept))
}

// alpha·x − Σ, at the scale of a product of two cells.
pub fn remainder(alpha: Cell, x: Cell, total: Total) -> Sum
    ensures { sum_value result ≡ remainder_sum (cell_value alpha) (cell_value x) (total_value total) }
{
    let right = Product::of(alpha?, x?);
    Some(added(right, total?.negated()))
}
