// Sums worked out over any layout, and told in the form that C reads.
ghost use Rattle.std.specs.Prelude.{◌≡◌, ◌≤◌, map, length, is_ok};
ghost use Rattle.cells.specs.Cells.{total_value, cell_at};
ghost use Rattle.layouts.specs.Rows.{row_sums};
ghost use Rattle.kernels.specs.Sums.{sum_record, ToldIfFew};

use crate::sum::SumRecord;
use cells::cell::{Record, Total};
use layouts::layout::Layout;
use layouts::product::row_sum;
use layouts::sweep::product_sums;
use layouts::vector::Vector;

// There are more than 1,024 sums.
#[derive(Clone, Copy)]
pub(crate) struct TooManySums;

fn tell_all(totals: &[Total], sums: &mut [SumRecord])
    requires { length sums.old ≡ length totals.now }
    ensures { sums.new ≡ map sum_record (map total_value totals.now) }
{
    // by the row: `zip` was tried, and of the sums that are written through it a proof knows nothing
    for (row, sum) in sums.iter_mut().enumerate() {
        *sum = SumRecord::from(totals[row]);
    }
}

// Column by column, with the totals in the first of N places: an array, since nothing below the accounts uses a heap.
fn swept<const N: usize, L: Layout>(layout: &L, xs: &[Record], sums: &mut [SumRecord])
    requires room { length sums.old ≤ N }
    requires few { N ≤ 1024 }
    ensures { sums.new ≡ map sum_record (row_sums (L.Layout.meaning layout.now) (cell_at xs.now) (length sums.old)) }
{
    let mut places = [None; N];
    let totals = &mut places[..sums.len()];
    product_sums(layout, Vector::of(xs), totals);
    tell_all(totals, sums);
}

// The sums of all rows, worked column by column. More than 1,024 sums are refused, and not touched.
pub(crate) fn by_columns<L: Layout>(
    layout: &L,
    xs: &[Record],
    sums: &mut [SumRecord],
) -> Result<(), TooManySums>
    ensures { ToldIfFew (is_ok result) sums.old sums.new (row_sums (L.Layout.meaning layout.now) (cell_at xs.now) (length sums.old)) }
{
    // a small product has a small array to set up
    match sums.len() {
        0..=16 => swept::<16, L>(layout, xs, sums),
        17..=128 => swept::<128, L>(layout, xs, sums),
        129..=1024 => swept::<1024, L>(layout, xs, sums),
        _ => return Err(TooManySums),
    }
    Ok(())
}

// The sums of all rows, worked row by row.
pub(crate) fn by_rows<L: Layout>(layout: &L, xs: &[Record], sums: &mut [SumRecord])
    ensures { sums.new ≡ map sum_record (row_sums (L.Layout.meaning layout.now) (cell_at xs.now) (length sums.old)) }
{
    let vector = Vector::of(xs);
    for (row, sum) in sums.iter_mut().enumerate() {
        *sum = SumRecord::from(row_sum(layout, row, vector));
    }
}
