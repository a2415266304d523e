// A symmetric matrix of which one triangle is stored: the other is read from its mirror image.
ghost use Rattle.std.specs.Prelude.{◌≡◌, ◌+◌, ◌<◌, ◌≤◌, min, max};
ghost use Rattle.layouts.specs.Layers.{symmetric, symmetric_sound};

use crate::layout::Layout;
use crate::lines::{smaller, whole};
use crate::side::Side;
use cells::cell::{Cell, Places};

// It is square by the smaller side of the layout below, of which it reads the named triangle alone.
#[derive(Drop)]
pub struct Symmetric<L> {
    pub below: L,
    pub side: Side,
}

// Of the places of a row, those from the first of some to the last of others, the one on the diagonal among them: before the diagonal a row
// holds what a row of the stored triangle holds, and behind it what a column holds, or the other way round.
fn around(row: usize, line: Places, before: Places, after: Places) -> Places
    requires { row < line.to }
    ensures { (result.from ≡ min row before.from) × (result.to ≡ max (row + 1) (min line.to after.to)) }
{
    Places {
        from: row.min(before.from),
        to: line.to.min(after.to).max(row + 1),
    }
}

impl<L: Layout> Layout for Symmetric<L> {
    ghost meaning = { λ t. symmetric t.side (L.Layout.meaning t.below) };

    ghost sound = { λ t. symmetric_sound t.side (L.Layout.meaning t.below) (L.Layout.sound t.below) };

    fn rows(&self) -> usize {
        smaller(&self.below)
    }

    fn columns(&self) -> usize {
        smaller(&self.below)
    }

    // asked at each place of a sum: hence the hint, as at a triangle's entry
    #[inline(always)]
    fn entry(&self, row: usize, column: usize) -> Cell {
        let n = smaller(&self.below);
        if row < n && column < n {
            match self.side {
                Side::Lower => self.below.entry(row.max(column), row.min(column)),
                Side::Upper => self.below.entry(row.min(column), row.max(column)),
            }
        } else {
            None
        }
    }

    fn across(&self, row: usize) -> Places {
        let line = whole(smaller(&self.below));
        if row < line.to {
            match self.side {
                Side::Lower => around(row, line, self.below.across(row), self.below.down(row)),
                Side::Upper => around(row, line, self.below.down(row), self.below.across(row)),
            }
        } else {
            line
        }
    }

    // column j is row j
    fn down(&self, column: usize) -> Places {
        self.across(column)
    }
}
