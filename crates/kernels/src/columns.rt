// What C calls, for square matrices, worked column by column: Σ L_ij·x_j for each row that `sums` has a place for. The answer, a
// bool since a Result does not cross to C, is false where there are more than 1,024 sums, which are then left as they were. C calls
// each by its name, and can call no generic function.
ghost use Rattle.std.specs.Prelude.{length};
ghost use Rattle.cells.specs.Cells.{cell_at};
ghost use Rattle.layouts.specs.declared.side.Side.TheVariants.{Lower};
ghost use Rattle.layouts.specs.Layers.{symmetric, transposed};
ghost use Rattle.layouts.specs.Rows.{row_sums};
ghost use Rattle.layouts.specs.Stored.{dense, band, packed};
ghost use Rattle.kernels.specs.Sums.{ToldIfFew};

use crate::square;
use crate::sum::SumRecord;
use crate::telling::by_columns;
use cells::cell::Record;

#[unsafe(no_mangle)]
pub extern "C" fn bepyndo_dense_by_columns(
    run: &[Record],
    n: usize,
    xs: &[Record],
    sums: &mut [SumRecord],
) -> bool
    ensures { ToldIfFew result sums.old sums.new (row_sums (dense run.now n n n) (cell_at xs.now) (length sums.old)) }
{
    by_columns(&square::dense(run, n), xs, sums).is_ok()
}

#[unsafe(no_mangle)]
pub extern "C" fn bepyndo_band_by_columns(
    run: &[Record],
    n: usize,
    k: usize,
    stride: usize,
    xs: &[Record],
    sums: &mut [SumRecord],
) -> bool
    ensures { ToldIfFew result sums.old sums.new (row_sums (band run.now n n k k stride) (cell_at xs.now) (length sums.old)) }
{
    by_columns(&square::band(run, n, k, k, stride), xs, sums).is_ok()
}

#[unsafe(no_mangle)]
pub extern "C" fn bepyndo_packed_by_columns(
    run: &[Record],
    n: usize,
    xs: &[Record],
    sums: &mut [SumRecord],
) -> bool
    ensures { ToldIfFew result sums.old sums.new (row_sums (packed run.now Lower n) (cell_at xs.now) (length sums.old)) }
{
    by_columns(&square::packed(run, n), xs, sums).is_ok()
}

#[unsafe(no_mangle)]
pub extern "C" fn bepyndo_symmetric_by_columns(
    run: &[Record],
    n: usize,
    xs: &[Record],
    sums: &mut [SumRecord],
) -> bool
    ensures { ToldIfFew result sums.old sums.new (row_sums (symmetric Lower (packed run.now Lower n)) (cell_at xs.now) (length sums.old)) }
{
    by_columns(&square::symmetric(run, n), xs, sums).is_ok()
}

#[unsafe(no_mangle)]
pub extern "C" fn bepyndo_transposed_by_columns(
    run: &[Record],
    n: usize,
    xs: &[Record],
    sums: &mut [SumRecord],
) -> bool
    ensures { ToldIfFew result sums.old sums.new (row_sums (transposed (dense run.now n n n)) (cell_at xs.now) (length sums.old)) }
{
    by_columns(&square::transposed(run, n), xs, sums).is_ok()
}
