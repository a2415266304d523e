// A triangular layout with exactly one on the diagonal, whatever stands there below.
ghost use Rattle.std.specs.Prelude.{◌≡◌, ◌+◌, ◌<◌, ◌≤◌, min, max, true};
ghost use Rattle.arithmetic.specs.Values.{bounds};
ghost use Rattle.cells.specs.Cells.{cell_value};
ghost use Rattle.layouts.specs.Layers.{smaller as smaller-of, unit_fit, unit_diagonal, unit_unfit, unit_sound};
ghost use Rattle.layouts.specs.Refusals.{Checked};

use crate::figures::{Figures, checked};
use crate::layout::{Layout, Triangular};
use crate::lines::{smaller, whole};
use crate::refusal::LayoutRefusal;
use crate::side::Side;
use cells::cell::{Cell, Places, Scale};

// One is [unit, unit], `unit` being the number of steps to one unit, from 1 to 100,000; another number means the 0 by 0
// matrix.
#[derive(Drop)]
pub struct UnitDiagonal<T> {
    pub below: T,
    pub unit: i64,
}

fn one(unit: i64) -> Cell
    requires { unit_fit unit ≡ true }
    ensures { cell_value result ≡ bounds unit unit }
{
    Scale { steps: unit }.one()
}

impl<T> UnitDiagonal<T> {
    fn has_fit_unit(&self) -> bool
        ensures { result ≡ unit_fit self.now.unit }
    {
        1 <= self.unit && self.unit <= 100_000
    }

    // The check of `Figures`, whatever is below: refused where the unit is unfit.
    pub fn check(&self) -> Result<(), LayoutRefusal>
        ensures { Checked (unit_fit self.now.unit) result }
    {
        checked(self.has_fit_unit())
    }
}

// The unit is its one figure; what is below has a check of its own.
impl<T: Triangular> Figures for UnitDiagonal<T> {
    ghost fit = { λ t. unit_fit t.unit };

    ghost unfit = { λ t. unit_unfit t.unit (T.Layout.meaning t.below) };

    fn is_fit(&self) -> bool {
        self.has_fit_unit()
    }
}

impl<T: Triangular> UnitDiagonal<T> {
    // The places of a line: those of the line below, and the one on the diagonal if it has one.
    fn with_one(&self, diagonal: usize, below: Places) -> Places
        ensures below { smaller-of (T.Layout.meaning self.now.below) ≤ diagonal → (result.from ≡ below.from) × (result.to ≡ below.to) }
        ensures more { diagonal < smaller-of (T.Layout.meaning self.now.below) → (result.from ≡ min diagonal below.from) × (result.to ≡ max (diagonal + 1) below.to) }
    {
        if diagonal < smaller(&self.below) {
            Places {
                from: diagonal.min(below.from),
                to: (diagonal + 1).max(below.to),
            }
        } else {
            below
        }
    }
}

impl<T: Triangular> Layout for UnitDiagonal<T> {
    ghost meaning = { λ t. unit_diagonal t.unit (T.Layout.meaning t.below) };

    ghost sound = { λ t. unit_sound t.unit (T.Layout.meaning t.below) (T.Layout.sound t.below) };

    fn rows(&self) -> usize {
        if self.is_fit() { self.below.rows() } else { 0 }
    }

    fn columns(&self) -> usize {
        if self.is_fit() {
            self.below.columns()
        } else {
            0
        }
    }

    fn entry(&self, row: usize, column: usize) -> Cell {
        if !self.is_fit() {
            return None;
        }
        if row < self.below.rows() && column < self.below.columns() {
            if row == column {
                one(self.unit)
            } else {
                self.below.entry(row, column)
            }
        } else {
            None
        }
    }

    fn across(&self, row: usize) -> Places {
        if !self.is_fit() {
            return whole(0);
        }
        self.with_one(row, self.below.across(row))
    }

    fn down(&self, column: usize) -> Places {
        if !self.is_fit() {
            return whole(0);
        }
        self.with_one(column, self.below.down(column))
    }
}

impl<T: Triangular> Triangular for UnitDiagonal<T> {
    ghost half = { λ t. T.Triangular.half t.below };

    fn side(&self) -> Side {
        self.below.side()
    }
}
