// The lengths of the supplied memory, and the columns in it.
ghost use Rattle.std.specs.Prelude.{◌≡◌, ◌<◌, ◌+◌, ◌*◌, length};
ghost use Rattle.sheet.specs.Memory.{has_cells, has_both, column, blanks};
ghost use Rattle.sheet.specs.Shapes.{Legal};

use crate::shape::Shape;
use cells::cell::{EMPTY, Record};

impl Shape {
    pub(crate) fn has_cells(self, cells: &[Record]) -> bool
        requires { Legal self }
        ensures { result ≡ has_cells self cells.now }
    {
        cells.len() == self.rows * self.columns
    }

    pub(crate) fn has_both(self, cells: &[Record], draft: &[Record]) -> bool
        requires { Legal self }
        ensures { result ≡ has_both self cells.now draft.now }
    {
        self.has_cells(cells) && draft.len() == self.rows
    }

    // Column k of the cells.
    pub(crate) fn column(self, cells: &[Record], k: usize) -> &[Record]
        requires legal { Legal self }
        requires whole { length cells.now ≡ self.rows * self.columns }
        requires inside { k < self.columns }
        ensures { result.now ≡ column self cells.now k }
    {
        let from = k * self.rows;
        &cells[from..from + self.rows]
    }
}

pub(crate) fn clear(run: &mut [Record])
    ensures { run.new ≡ blanks (length run.old) }
{
    run.fill(EMPTY);
}
