// Dense storage: all of a matrix, column after column.
ghost use Rattle.std.specs.Prelude.{◌≡◌, ◌^◌, ◌<◌};
ghost use Rattle.layouts.specs.Stored.{dense as stored, dense_place, dense_fit, dense_unfit, dense_sound};

use crate::figures::{Figures, has_room};
use crate::layout::Layout;
use cells::cell::{Cell, Record};
use cells::reading::read;

// Entry (i, j) is the record at j·stride + i. The stride is at least 1 and at least the number of rows, the run at least
// stride times columns long, and there are at most 1,024 rows and columns; other figures mean the 0 by 0 matrix.
#[derive(Clone, Copy)]
pub struct Dense<'a> {
    pub run: &'a [Record],
    pub rows: usize,
    pub columns: usize,
    pub stride: usize,
}

fn place(stride: usize, row: usize, column: usize) -> usize
    requires { dense_place stride row column < 2 ^ 61 }
    ensures { result ≡ dense_place stride row column }
{
    column * stride + row
}

impl Figures for Dense<'_> {
    ghost fit = { λ d. dense_fit d.run.now d.rows d.columns d.stride };

    ghost unfit = { λ d. dense_unfit d.run.now d.rows d.columns d.stride };

    fn is_fit(&self) -> bool {
        self.rows <= 1024
            && self.columns <= 1024
            && 1 <= self.stride
            && self.rows <= self.stride
            && has_room(self.stride, self.columns, self.run.len())
    }
}

impl Layout for Dense<'_> {
    ghost meaning = { λ d. stored d.run.now d.rows d.columns d.stride };

    ghost sound = { λ d. dense_sound d.run.now d.rows d.columns d.stride };

    fn rows(&self) -> usize {
        if self.is_fit() { self.rows } else { 0 }
    }

    fn columns(&self) -> usize {
        if self.is_fit() { self.columns } else { 0 }
    }

    fn entry(&self, row: usize, column: usize) -> Cell {
        if !self.is_fit() {
            return None;
        }
        if row < self.rows && column < self.columns {
            read(self.run[place(self.stride, row, column)])
        } else {
            None
        }
    }
}
