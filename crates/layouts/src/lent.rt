// A layout that is lent is a layout, so a layer can stand over a reference as well as over a value.
use crate::layout::{Layout, Triangular};
use crate::side::Side;
use cells::cell::{Cell, Places};

impl<L: Layout> Layout for &L {
    ghost meaning = { λ l. L.Layout.meaning l.now };

    ghost sound = { λ l. L.Layout.sound l.now };

    fn rows(&self) -> usize {
        (**self).rows()
    }

    fn columns(&self) -> usize {
        (**self).columns()
    }

    fn entry(&self, row: usize, column: usize) -> Cell {
        (**self).entry(row, column)
    }

    fn across(&self, row: usize) -> Places {
        (**self).across(row)
    }

    fn down(&self, column: usize) -> Places {
        (**self).down(column)
    }
}

impl<T: Triangular> Triangular for &T {
    ghost half = { λ l. T.Triangular.half l.now };

    fn side(&self) -> Side {
        (**self).side()
    }
}
