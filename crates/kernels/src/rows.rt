// What C calls, for square matrices, worked row by row: Σ L_ij·x_j for each row that `sums` has a place for. C calls
// each by its name, and can call no generic function.
ghost use Rattle.std.specs.Prelude.{◌≡◌, map, length};
ghost use Rattle.cells.specs.Cells.{cell_at};
ghost use Rattle.layouts.specs.declared.side.Side.TheVariants.{Lower};
ghost use Rattle.layouts.specs.Layers.{symmetric, transposed};
ghost use Rattle.layouts.specs.Rows.{row_sums};
ghost use Rattle.layouts.specs.Stored.{dense, band, packed};
ghost use Rattle.kernels.specs.Sums.{sum_record};

use crate::square;
use crate::sum::SumRecord;
use crate::telling::by_rows;
use cells::cell::Record;

#[unsafe(no_mangle)]
pub extern "C" fn bepyndo_dense_by_rows(
    run: &[Record],
    n: usize,
    xs: &[Record],
    sums: &mut [SumRecord],
)
    ensures { sums.new ≡ map sum_record (row_sums (dense run.now n n n) (cell_at xs.now) (length sums.old)) }
{
    by_rows(&square::dense(run, n), xs, sums);
}

#[unsafe(no_mangle)]
pub extern "C" fn bepyndo_band_by_rows(
    run: &[Record],
    n: usize,
    k: usize,
    stride: usize,
    xs: &[Record],
    sums: &mut [SumRecord],
)
    ensures { sums.new ≡ map sum_record (row_sums (band run.now n n k k stride) (cell_at xs.now) (length sums.old)) }
{
    by_rows(&square::band(run, n, k, k, stride), xs, sums);
}

#[unsafe(no_mangle)]
pub extern "C" fn bepyndo_packed_by_rows(
    run: &[Record],
    n: usize,
    xs: &[Record],
    sums: &mut [SumRecord],
)
    ensures { sums.new ≡ map sum_record (row_sums (packed run.now Lower n) (cell_at xs.now) (length sums.old)) }
{
    by_rows(&square::packed(run, n), xs, sums);
}

#[unsafe(no_mangle)]
pub extern "C" fn bepyndo_symmetric_by_rows(
    run: &[Record],
    n: usize,
    xs: &[Record],
    sums: &mut [SumRecord],
)
    ensures { sums.new ≡ map sum_record (row_sums (symmetric Lower (packed run.now Lower n)) (cell_at xs.now) (length sums.old)) }
{
    by_rows(&square::symmetric(run, n), xs, sums);
}

#[unsafe(no_mangle)]
pub extern "C" fn bepyndo_transposed_by_rows(
    run: &[Record],
    n: usize,
    xs: &[Record],
    sums: &mut [SumRecord],
)
    ensures { sums.new ≡ map sum_record (row_sums (transposed (dense run.now n n n)) (cell_at xs.now) (length sums.old)) }
{
    by_rows(&square::transposed(run, n), xs, sums);
}
