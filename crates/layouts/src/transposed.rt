// The transpose of a layout: rows and columns change places.
ghost use Rattle.layouts.specs.Layers.{transposed, transposed_sound};
ghost use Rattle.layouts.specs.Sides.{opposite};

use crate::layout::{Layout, Triangular};
use crate::side::Side;
use cells::cell::{Cell, Places};

#[derive(Drop)]
pub struct Transposed<L> {
    pub below: L,
}

impl<L: Layout> Layout for Transposed<L> {
    ghost meaning = { λ t. transposed (L.Layout.meaning t.below) };

    ghost sound = { λ t. transposed_sound (L.Layout.meaning t.below) (L.Layout.sound t.below) };

    fn rows(&self) -> usize {
        self.below.columns()
    }

    fn columns(&self) -> usize {
        self.below.rows()
    }

    fn entry(&self, row: usize, column: usize) -> Cell {
        self.below.entry(column, row)
    }

    fn across(&self, row: usize) -> Places {
        self.below.down(row)
    }

    fn down(&self, column: usize) -> Places {
        self.below.across(column)
    }
}

impl<T: Triangular> Triangular for Transposed<T> {
    ghost half = { λ t. opposite (T.Triangular.half t.below) };

    fn side(&self) -> Side {
        self.below.side().opposite()
    }
}
