// What C calls for whole calls of a sheet, over square matrices with n rows. C calls each by its name, and can call no generic function.
ghost use Rattle.layouts.specs.declared.side.Side.TheVariants.{Lower};
ghost use Rattle.layouts.specs.Layers.{triangle};
ghost use Rattle.layouts.specs.Stored.{dense, band, packed};
ghost use Rattle.kernels.specs.Whole.{shape_of, dot_of, product_of, solve_of, Works, WorksOver};

use crate::answer::AnswerRecord;
use crate::asked::Asked;
use crate::operands::{Dot, product, solve};
use crate::square;
use crate::whole::worked;
use cells::cell::Record;

#[unsafe(no_mangle)]
pub extern "C" fn bepyndo_dot(
    row: usize,
    other: usize,
    asked: &Asked,
    own: &mut [Record],
    cells: &mut [Record],
    draft: &mut [Record],
) -> AnswerRecord
    ensures { Works (shape_of asked.now) (dot_of asked.now row other) own.old cells.old draft.old result own.new cells.new draft.new }
{
    let asked = *asked;
    worked(&Dot { asked, row, other }, asked, own, cells, draft)
}

#[unsafe(no_mangle)]
pub extern "C" fn bepyndo_product_dense(
    run: &[Record],
    n: usize,
    asked: &Asked,
    own: &mut [Record],
    cells: &mut [Record],
    draft: &mut [Record],
) -> AnswerRecord
    ensures { WorksOver (shape_of asked.now) (dense run.now n n n) (product_of asked.now) own.old cells.old draft.old result own.new cells.new draft.new }
{
    product(&square::dense(run, n), *asked, own, cells, draft)
}

#[unsafe(no_mangle)]
pub extern "C" fn bepyndo_product_band(
    run: &[Record],
    n: usize,
    k: usize,
    stride: usize,
    asked: &Asked,
    own: &mut [Record],
    cells: &mut [Record],
    draft: &mut [Record],
) -> AnswerRecord
    ensures { WorksOver (shape_of asked.now) (band run.now n n k k stride) (product_of asked.now) own.old cells.old draft.old result own.new cells.new draft.new }
{
    product(
        &square::band(run, n, k, k, stride),
        *asked,
        own,
        cells,
        draft,
    )
}

#[unsafe(no_mangle)]
pub extern "C" fn bepyndo_product_packed(
    run: &[Record],
    n: usize,
    asked: &Asked,
    own: &mut [Record],
    cells: &mut [Record],
    draft: &mut [Record],
) -> AnswerRecord
    ensures { WorksOver (shape_of asked.now) (packed run.now Lower n) (product_of asked.now) own.old cells.old draft.old result own.new cells.new draft.new }
{
    product(&square::packed(run, n), *asked, own, cells, draft)
}

#[unsafe(no_mangle)]
pub extern "C" fn bepyndo_solve_dense(
    run: &[Record],
    n: usize,
    asked: &Asked,
    own: &mut [Record],
    cells: &mut [Record],
    draft: &mut [Record],
) -> AnswerRecord
    ensures { WorksOver (shape_of asked.now) (triangle Lower (dense run.now n n n)) (solve_of asked.now Lower) own.old cells.old draft.old result own.new cells.new draft.new }
{
    solve(
        &square::lower_of(square::dense(run, n)),
        *asked,
        own,
        cells,
        draft,
    )
}

#[unsafe(no_mangle)]
pub extern "C" fn bepyndo_solve_band(
    run: &[Record],
    n: usize,
    k: usize,
    stride: usize,
    asked: &Asked,
    own: &mut [Record],
    cells: &mut [Record],
    draft: &mut [Record],
) -> AnswerRecord
    ensures { WorksOver (shape_of asked.now) (triangle Lower (band run.now n n k k stride)) (solve_of asked.now Lower) own.old cells.old draft.old result own.new cells.new draft.new }
{
    solve(
        &square::lower_of(square::band(run, n, k, k, stride)),
        *asked,
        own,
        cells,
        draft,
    )
}

#[unsafe(no_mangle)]
pub extern "C" fn bepyndo_solve_packed(
    run: &[Record],
    n: usize,
    asked: &Asked,
    own: &mut [Record],
    cells: &mut [Record],
    draft: &mut [Record],
) -> AnswerRecord
    ensures { WorksOver (shape_of asked.now) (packed run.now Lower n) (solve_of asked.now Lower) own.old cells.old draft.old result own.new cells.new draft.new }
{
    solve(&square::packed(run, n), *asked, own, cells, draft)
}
