// The cell formulas of dot, sum and blend over runs of records: what the cell at a row of a column becomes.
// Every operand counts: an empty one empties the cell, even under a factor of zero. How many terms there are is told beside the
// runs, since runs may be longer; a place past a run's end is empty.
ghost use Rattle.std.specs.Prelude.{◌≡◌, ⊤};
ghost use Rattle.arithmetic.specs.Values.{total};
ghost use Rattle.cells.specs.Cells.{cell_value, total_value, sum_value, cell_at};
ghost use Rattle.cells.specs.Formulas.{sum_of_products, weighted_sum};
ghost use Rattle.cells.specs.Worked.{dot_at, sum_at, blend_at};

use crate::cell::{Cell, Extremes, Factors, Places, Record, Sum, Target, Terms, Total, Totals};
use crate::fault::CellFault;
use crate::reading::{cell_at, read};
use crate::rounding_out::{keep, round_out};
use crate::totals::{Operands, blended, sum_of_products, weighted};
use rounding::rest::Rounding;

// Two runs of records as the operands of a sum of products.
#[derive(Clone, Copy)]
struct Runs<'a, 'b> {
    xs: &'a [Record],
    ys: &'b [Record],
}

impl<'a, 'b> Operands for Runs<'a, 'b> {
    ghost lefts = { λ s. cell_at s.xs.now };

    ghost rights = { λ s. cell_at s.ys.now };

    ghost has = { λ _ _. ⊤ };

    fn left(&self, place: usize) -> Cell {
        cell_at(self.xs, place)
    }

    fn right(&self, place: usize) -> Cell {
        cell_at(self.ys, place)
    }
}

// Σ x_j, unrounded.
fn sum_of_cells(xs: &[Record], terms: Terms) -> Total
    ensures { total_value result ≡ total (cell_at xs.now) 0 terms.count }
{
    let mut sofar = Totals::ZERO;
    // a run that is too short has an empty place
    for record in xs.get(..terms.count)? {
        sofar = sofar.with(Extremes::from(read(*record)?));
    }
    Some(sofar)
}

// beta·r + alpha·Σ x_j·y_j, unrounded.
fn dot_sum(factors: Factors, old: Cell, xs: &[Record], ys: &[Record], terms: Terms) -> Sum
    ensures { sum_value result ≡ weighted_sum factors.scale.steps (cell_value factors.alpha) (cell_value factors.beta) (cell_value old) (sum_of_products (cell_at xs.now) (cell_at ys.now) 0 terms.count) }
{
    let products = sum_of_products(&Runs { xs, ys }, Places::from(terms));
    weighted(factors, old, products)
}

// beta·r + alpha·Σ x_j·y_j over the first places of two runs, r being the cell at the row.
pub fn dot(
    rounding: &mut Rounding,
    factors: Factors,
    target: Target<'_>,
    xs: &[Record],
    ys: &[Record],
    terms: Terms,
) -> Result<Record, CellFault>
    ensures { result ≡ dot_at factors.scale.steps (cell_value factors.alpha) (cell_value factors.beta) target.entry.column.now target.entry.row xs.now ys.now terms.count }
{
    let sum = dot_sum(factors, target.old(), xs, ys, terms);
    Ok(round_out(rounding, sum, factors.scale.squared()).map_err(|fault| (target.row, fault))?)
}

// Σ x_j over the first places of a run.
pub fn sum(xs: &[Record], terms: Terms, row: usize) -> Result<Record, CellFault>
    ensures { result ≡ sum_at row xs.now terms.count }
{
    Ok(keep(sum_of_cells(xs, terms)).map_err(|fault| (row, fault))?)
}

// alpha·x + beta·r, x and r being the cells at the row of two runs.
pub fn blend(
    rounding: &mut Rounding,
    factors: Factors,
    target: Target<'_>,
    xs: &[Record],
) -> Result<Record, CellFault>
    ensures { result ≡ blend_at factors.scale.steps (cell_value factors.alpha) (cell_value factors.beta) target.entry.column.now target.entry.row xs.now }
{
    let sum = blended(factors, cell_at(xs, target.row), target.old());
    Ok(round_out(rounding, sum, factors.scale.once()).map_err(|fault| (target.row, fault))?)
}
