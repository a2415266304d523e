// What a layout is asked, and what a triangular one is asked besides. Asking changes nothing.
ghost use Rattle.std.specs.Prelude.{◌≡◌};
ghost use Rattle.cells.specs.Cells.{cell_value};
ghost use Rattle.layouts.specs.declared.side.Side.{Side};
ghost use Rattle.layouts.specs.Matrix.{Matrix, Sound};
ghost use Rattle.layouts.specs.Sides.{IsTriangle};
ghost use Rattle.layouts.specs.Spans.{ZeroAcross, ZeroDown};

use crate::lines::whole;
use crate::side::Side;
use cells::cell::{Cell, Places};

// A matrix of cells, however it is stored. Rows and columns are asked apart, by two questions each, since a matrix need not be square.
pub trait Layout {
    // the matrix that the layout means
    ghost meaning: { Self → Matrix };

    fn rows(&self) -> usize
        ensures { result ≡ (meaning self.now).rows };

    fn columns(&self) -> usize
        ensures { result ≡ (meaning self.now).columns };

    // The cell at a row and a column, counted from 0; empty outside the shape.
    fn entry(&self, row: usize, column: usize) -> Cell
        ensures { cell_value result ≡ (meaning self.now).entry row column };

    // Columns of a row outside which the row is [0, 0]. Which of them is answered is free; the narrower, the faster.
    fn across(&self, row: usize) -> Places
        ensures { ZeroAcross (meaning self.now) row result }
    {
        let _ = row;
        whole(self.columns())
    }

    // Rows of a column outside which the column is [0, 0]. Which of them is answered is free; the narrower, the faster.
    fn down(&self, column: usize) -> Places
        ensures { ZeroDown (meaning self.now) column result }
    {
        let _ = column;
        whole(self.rows())
    }

    // a law: at most 1,024 rows and columns, cells as entries, empty outside
    ghost sound: { (l : Self) → Sound (meaning l) };
}

// A square matrix with [0, 0] at every place on the other side of the diagonal.
pub trait Triangular: Layout {
    // the side that the layout names
    ghost half: { Self → Side };

    fn side(&self) -> Side
        ensures is { result ≡ half self.now }
        ensures zeros { IsTriangle result (Self.Layout.meaning self.now) };
}
