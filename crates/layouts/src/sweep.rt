// The sums of all rows of a product at once, column by column: storage stands column by column too, so memory is read in
// order, and each x_j is read once.
ghost use Rattle.std.specs.Prelude.{◌≡◌, ℕ, ◌+◌, ◌<◌, ◌≤◌, map, length, None, slice_index_or};
ghost use Rattle.arithmetic.specs.Values.{bounds, times, plus, Small};
ghost use Rattle.cells.specs.Cells.{total_value, cell_at};
ghost use Rattle.layouts.specs.Rows.{row_sums};

use crate::layout::Layout;
use crate::vector::Vector;
use cells::cell::{Interval, Total, Totals};
use cells::reading::read;
use cells::totals::add_product;

// Adds a column of the layout times the bounds of a filled cell. Of the column only the span that `down` answers is read: elsewhere
// it is [0, 0]. A sum holds at most 1,023 products before, and one more after; the numbers are those of `add_product`.
// Compiled as a function that is lent the layout, it has the figures of the layout read and tested again at each place, since
// for LLVM a write to a sum may change them. Hence the hint here and at its caller.
#[inline(always)]
fn add_column<L: Layout>(layout: &L, column: usize, factor: Interval, sums: &mut [Total])
    requires { (k : ℕ) → k < length sums.old → Small 17574738002943 (total_value (slice_index_or sums.old k None)) }
    ensures is { (k : ℕ) → k < length sums.old → k < (L.Layout.meaning layout.now).rows → total_value (slice_index_or sums.new k None) ≡ plus (total_value (slice_index_or sums.old k None)) (times ((L.Layout.meaning layout.now).entry k column) (bounds factor.lower factor.upper)) }
    ensures size { (k : ℕ) → k < length sums.old → (n : ℕ) → Small n (total_value (slice_index_or sums.old k None)) → Small (n + 17179607041) (total_value (slice_index_or sums.new k None)) }
{
    let places = layout.down(column);
    // the rows are counted: a chain over `iter_mut` with `take` and `skip` was tried, and a proof knows nothing of the sums that it
    // leaves; a loop over a part of the sums would count from 0 and be no plainer
    for row in places.from..places.to.min(sums.len()) {
        sums[row] = add_product(sums[row], layout.entry(row, column), Some(factor));
    }
}

// Σ L_ij·x_j over all columns of the layout, unrounded, for each row that `sums` has a place for.
#[inline(always)]
pub fn product_sums<L: Layout>(layout: &L, xs: Vector<'_>, sums: &mut [Total])
    ensures { map total_value sums.new ≡ row_sums (L.Layout.meaning layout.now) (cell_at xs.entry.run.now) (length sums.old) }
{
    let columns = layout.columns();
    if xs.filled < columns {
        sums.fill(None);
        return;
    }
    sums.fill(Some(Totals::ZERO));
    for (column, record) in xs.run[..columns].iter().enumerate() {
        // no cell is empty here; taken apart once a column, so that no row asks again
        if let Some(factor) = read(*record) {
            add_column(layout, column, factor, sums);
        }
    }
    if columns > 0 {
        let rows = layout.rows().min(sums.len());
        sums[rows..].fill(None);
    }
}
