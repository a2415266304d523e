// One triangle of a layout, with [0, 0] on the other side of the diagonal.
ghost use Rattle.std.specs.Prelude.{◌≡◌, ◌<◌, ◌≤◌, min, max};
ghost use Rattle.layouts.specs.Layers.{triangle, triangle_sound};
ghost use Rattle.layouts.specs.Spans.{half_from, half_to};

use crate::entries::zero;
use crate::layout::{Layout, Triangular};
use crate::lines::{half, overlap, smaller, whole};
use crate::side::Side;
use cells::cell::{Cell, Places};

// It is square by the smaller side of the layout below, of which it reads the named triangle alone.
#[derive(Drop)]
pub struct Triangle<L> {
    pub below: L,
    pub side: Side,
}

// Of the places of a line, those of the layout below that are on a side; all where the line has none on the diagonal.
fn kept(side: Side, diagonal: usize, line: Places, below: Places) -> Places
    ensures none { line.to ≤ diagonal → (result.from ≡ line.from) × (result.to ≡ line.to) }
    ensures kept { diagonal < line.to → (result.to ≡ min (half_to side diagonal line.to) (max (half_from side diagonal) below.to)) × (result.from ≡ min result.to (max (half_from side diagonal) below.from)) }
{
    let places = half(side, diagonal, line);
    if diagonal < line.to {
        overlap(below, places)
    } else {
        places
    }
}

impl<L: Layout> Layout for Triangle<L> {
    ghost meaning = { λ t. triangle t.side (L.Layout.meaning t.below) };

    ghost sound = { λ t. triangle_sound t.side (L.Layout.meaning t.below) (L.Layout.sound t.below) };

    fn rows(&self) -> usize {
        smaller(&self.below)
    }

    fn columns(&self) -> usize {
        smaller(&self.below)
    }

    // asked at each place of a sum, and twice as slow where it is a call by itself: hence the hint
    #[inline(always)]
    fn entry(&self, row: usize, column: usize) -> Cell {
        let n = smaller(&self.below);
        if row < n && column < n {
            match self.side {
                Side::Lower if column <= row => self.below.entry(row, column),
                Side::Upper if row <= column => self.below.entry(row, column),
                _ => zero(),
            }
        } else {
            None
        }
    }

    fn across(&self, row: usize) -> Places {
        let line = whole(smaller(&self.below));
        kept(self.side, row, line, self.below.across(row))
    }

    fn down(&self, column: usize) -> Places {
        let line = whole(smaller(&self.below));
        kept(self.side.opposite(), column, line, self.below.down(column))
    }
}

impl<L: Layout> Triangular for Triangle<L> {
    ghost half = { λ t. t.side };

    fn side(&self) -> Side {
        self.side
    }
}
