// A dense copy of any layout.
ghost use Rattle.std.specs.Prelude.{◌≡◌, ◌<◌, ◌*◌, ◌/◌, ◌%◌, ◌≤◌, map, IfOk};
ghost use Rattle.std.specs.List.{range_with_len};
ghost use Rattle.cells.specs.Cells.{written};
ghost use Rattle.layouts.specs.Stored.{dense};

use cells::cell::Record;
use layouts::layout::Layout;
use std::alloc::{AllocError, Global};

// A run with the figures by which dense storage reads it.
#[derive(Drop)]
pub struct DenseCopy {
    pub run: Vec<Record>,
    pub rows: usize,
    pub columns: usize,
    pub stride: usize,
}

// The cells of a layout at so many places, column after column, each column with `stride` of them; outside the shape they are empty.
fn all_columns<L: Layout>(
    heap: Global,
    layout: &L,
    stride: usize,
    places: usize,
) -> Result<Vec<Record>, AllocError>
    requires { 0 < stride }
    ensures { IfOk result (λ run. run.items ≡ map (λ k. written ((L.Layout.meaning layout.now).entry (k % stride) (k / stride))) (range_with_len 0 places)) }
{
    (0..places)
        .map(|place| Record::from(layout.entry(place % stride, place / stride)))
        .collect(heap)
}

// The copy means the same matrix as the layout.
pub fn dense_copy<L: Layout>(heap: Global, layout: &L) -> Result<DenseCopy, AllocError>
    ensures { IfOk result (λ copy. dense copy.run.items copy.rows copy.columns copy.stride ≡ L.Layout.meaning layout.now) }
{
    // what is written reads back
    cells::laws::laws_stand();
    let (rows, columns) = (layout.rows(), layout.columns());
    // dense storage wants a stride of 1 also where there are no rows
    let stride = rows.max(1);
    Ok(DenseCopy {
        run: all_columns(heap, layout, stride, stride * columns)?,
        rows,
        columns,
        stride,
    })
}
