// Packed storage: the columns of one triangle, one after the other with no gaps.
ghost use Rattle.std.specs.Prelude.{◌≡◌, ◌<◌, ◌≤◌};
ghost use Rattle.layouts.specs.declared.side.Side.TheVariants.{Lower, Upper};
ghost use Rattle.layouts.specs.Stored.{packed as stored, packed_fit, packed_place, packed_unfit, packed_sound};

use crate::entries::zero;
use crate::figures::Figures;
use crate::layout::{Layout, Triangular};
use crate::lines::{half, whole};
use crate::side::Side;
use cells::cell::{Cell, Places, Record};
use cells::reading::read;

// A triangle with n rows and columns: entry (i, j) of a lower one is the record at i + j·(2n − j − 1)/2, of an upper one at
// i + j·(j + 1)/2. n is at most 1,024 and the run exactly n·(n + 1)/2 long; other figures mean the 0 by 0 matrix.
#[derive(Clone, Copy)]
pub struct Packed<'a> {
    pub run: &'a [Record],
    pub side: Side,
    pub n: usize,
}

fn lower_place(n: usize, row: usize, column: usize) -> usize
    requires small { n ≤ 1024 }
    requires row { row < n }
    requires column { column < n }
    ensures { result ≡ packed_place Lower n row column }
{
    row + column * (2 * n - column - 1) / 2
}

fn upper_place(n: usize, row: usize, column: usize) -> usize
    requires small { n ≤ 1024 }
    requires row { row < n }
    requires column { column < n }
    ensures { result ≡ packed_place Upper n row column }
{
    row + column * (column + 1) / 2
}

impl Figures for Packed<'_> {
    ghost fit = { λ d. packed_fit d.run.now d.n };

    ghost unfit = { λ d. packed_unfit d.run.now d.side d.n };

    fn is_fit(&self) -> bool {
        self.n <= 1024 && self.run.len() == self.n * (self.n + 1) / 2
    }
}

impl Layout for Packed<'_> {
    ghost meaning = { λ d. stored d.run.now d.side d.n };

    ghost sound = { λ d. packed_sound d.run.now d.side d.n };

    fn rows(&self) -> usize {
        if self.is_fit() { self.n } else { 0 }
    }

    fn columns(&self) -> usize {
        if self.is_fit() { self.n } else { 0 }
    }

    fn entry(&self, row: usize, column: usize) -> Cell {
        if !self.is_fit() {
            return None;
        }
        if row < self.n && column < self.n {
            match self.side {
                Side::Lower if column <= row => read(self.run[lower_place(self.n, row, column)]),
                Side::Upper if row <= column => read(self.run[upper_place(self.n, row, column)]),
                _ => zero(),
            }
        } else {
            None
        }
    }

    fn across(&self, row: usize) -> Places {
        half(self.side, row, whole(self.columns()))
    }

    fn down(&self, column: usize) -> Places {
        half(self.side.opposite(), column, whole(self.rows()))
    }
}

impl Triangular for Packed<'_> {
    ghost half = { λ d. d.side };

    fn side(&self) -> Side {
        self.side
    }
}
