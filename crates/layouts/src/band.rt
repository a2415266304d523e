// Band storage: of each column only the places near the diagonal.
ghost use Rattle.std.specs.Prelude.{◌≡◌, ◌+◌, ◌^◌, ◌<◌, ◌≤◌};
ghost use Rattle.layouts.specs.Stored.{band as stored, band_place, band_fit, band_unfit, band_sound};

use crate::entries::zero;
use crate::figures::{Figures, has_room};
use crate::layout::Layout;
use crate::lines::{near, whole};
use cells::cell::{Cell, Places, Record};
use cells::reading::read;

// Entry (i, j), where i is at most `below` below j and at most `above` above it, is the record at above + i − j + j·stride;
// every other entry is [0, 0]. The stride is at least below + above + 1, the run at least stride times columns long, there
// are at most 1,024 rows and columns, and `below` and `above` are at most 1,023; other figures mean the 0 by 0 matrix.
#[derive(Clone, Copy)]
pub struct Band<'a> {
    pub run: &'a [Record],
    pub rows: usize,
    pub columns: usize,
    pub below: usize,
    pub above: usize,
    pub stride: usize,
}

fn place(above: usize, stride: usize, row: usize, column: usize) -> usize
    requires row { row < 1024 }
    requires above { above < 1024 }
    requires inside { band_place above stride row column < 2 ^ 61 }
    requires here { column ≤ row + above }
    ensures { result ≡ band_place above stride row column }
{
    above + row - column + column * stride
}

impl Figures for Band<'_> {
    ghost fit = { λ d. band_fit d.run.now d.rows d.columns d.below d.above d.stride };

    ghost unfit = { λ d. band_unfit d.run.now d.rows d.columns d.below d.above d.stride };

    fn is_fit(&self) -> bool {
        self.rows <= 1024
            && self.columns <= 1024
            && self.below <= 1023
            && self.above <= 1023
            && self.below + self.above + 1 <= self.stride
            && has_room(self.stride, self.columns, self.run.len())
    }
}

impl Layout for Band<'_> {
    ghost meaning = { λ d. stored d.run.now d.rows d.columns d.below d.above d.stride };

    ghost sound = { λ d. band_sound d.run.now d.rows d.columns d.below d.above d.stride };

    fn rows(&self) -> usize {
        if self.is_fit() { self.rows } else { 0 }
    }

    fn columns(&self) -> usize {
        if self.is_fit() { self.columns } else { 0 }
    }

    fn entry(&self, row: usize, column: usize) -> Cell {
        if !self.is_fit() {
            return None;
        }
        if row < self.rows && column < self.columns {
            if column <= row + self.above && row <= column + self.below {
                read(self.run[place(self.above, self.stride, row, column)])
            } else {
                zero()
            }
        } else {
            None
        }
    }

    fn across(&self, row: usize) -> Places {
        let columns = whole(self.columns());
        if row < self.rows() {
            near(row, self.below, self.above, columns)
        } else {
            columns
        }
    }

    fn down(&self, column: usize) -> Places {
        let rows = whole(self.rows());
        if column < self.columns() {
            near(column, self.above, self.below, rows)
        } else {
            rows
        }
    }
}
