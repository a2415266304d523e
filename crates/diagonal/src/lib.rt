// A layout of one's own, as an example: a diagonal matrix, of which only the diagonal is stored.
// docs/ADDING-A-LAYOUT.md goes through it.
#![tactic(auto)]

ghost use Rattle.std.specs.Prelude.{◌≡◌, ◌+◌, ◌≤◌, ltb, if◌then◌else◌};
ghost use Rattle.layouts.specs.declared.side.Side.TheVariants.{Lower};
ghost use Rattle.diagonal.specs.Diagonal.{diagonal, diagonal_fit, diagonal_unfit, diagonal_sound};

use cells::cell::{Cell, Interval, Places, Record};
use cells::reading::cell_at;
use layouts::figures::Figures;
use layouts::layout::{Layout, Triangular};
use layouts::side::Side;

// Entry (i, i) is the record at i, every other entry is [0, 0]. A run of more than 1,024 records means the 0 by 0 matrix.
#[derive(Clone, Copy)]
pub struct Diagonal<'a> {
    pub run: &'a [Record],
}

// Of a row and of a column alike, only the place on the diagonal can hold other than [0, 0]; outside the shape nothing is said.
fn only(place: usize, n: usize) -> Places
    requires { n ≤ 1024 }
    ensures from { result.from ≡ (if ltb place n then place else 0) }
    ensures to { result.to ≡ (if ltb place n then place + 1 else n) }
{
    if place < n {
        Places {
            from: place,
            to: place + 1,
        }
    } else {
        Places { from: 0, to: n }
    }
}

impl Figures for Diagonal<'_> {
    ghost fit = { λ d. diagonal_fit d.run.now };

    ghost unfit = { λ d. diagonal_unfit d.run.now };

    fn is_fit(&self) -> bool {
        self.run.len() <= 1024
    }
}

impl Layout for Diagonal<'_> {
    ghost meaning = { λ d. diagonal d.run.now };

    ghost sound = { λ d. diagonal_sound d.run.now };

    fn rows(&self) -> usize {
        if self.is_fit() { self.run.len() } else { 0 }
    }

    fn columns(&self) -> usize {
        self.rows()
    }

    fn entry(&self, row: usize, column: usize) -> Cell {
        let n = self.rows();
        if row >= n || column >= n {
            return None;
        }
        if row == column {
            cell_at(self.run, row)
        } else {
            Some(Interval { lower: 0, upper: 0 })
        }
    }

    fn across(&self, row: usize) -> Places {
        only(row, self.rows())
    }

    fn down(&self, column: usize) -> Places {
        only(column, self.rows())
    }
}

// A diagonal matrix is a lower triangle, and an upper one too; it has to name one side, and is solved from the first row on.
impl Triangular for Diagonal<'_> {
    ghost half = { λ d. Lower };

    fn side(&self) -> Side {
        Side::Lower
    }
}
