// A row of a layout beside a part of a run, as the operands of a sum of products. Every operand counts, also one that stands under
// a structural zero: here none is empty, and so zeros can be skipped.
ghost use Rattle.std.specs.Prelude.{◌≡◌, ◌-◌, ◌<◌, ◌≤◌};
ghost use Rattle.cells.specs.Cells.{total_value, cell_at};
ghost use Rattle.cells.specs.Formulas.{sum_of_products};

use crate::filled_part::FilledPart;
use crate::layout::Layout;
use crate::lines::overlap;
use cells::cell::{Cell, Total};
use cells::totals::{Operands, sum_of_products};

#[derive(Drop)]
pub(crate) struct RowTimes<'a, 'b, L> {
    pub(crate) layout: &'a L,
    pub(crate) row: usize,
    pub(crate) xs: FilledPart<'b>,
}

impl<'a, 'b, L: Layout> Operands for RowTimes<'a, 'b, L> {
    ghost lefts = { λ s. (L.Layout.meaning s.layout.now).entry s.row };

    ghost rights = { λ s. cell_at s.xs.run.now };

    ghost has = { λ s place. (s.xs.places.from ≤ place) × (place < s.xs.places.to) };

    fn left(&self, place: usize) -> Cell {
        self.layout.entry(self.row, place)
    }

    fn right(&self, place: usize) -> Cell {
        self.xs.cell(place)
    }
}

impl<'a, 'b, L: Layout> RowTimes<'a, 'b, L> {
    // Σ over the columns of that part, unrounded. Of the row only the span that `across` answers is read: elsewhere it is [0, 0].
    pub(crate) fn sum(&self) -> Total
        requires { self.now.xs.places.to ≤ (L.Layout.meaning self.now.layout.now).columns }
        ensures { total_value result ≡ sum_of_products ((L.Layout.meaning self.now.layout.now).entry self.now.row) (cell_at self.now.xs.run.now) self.now.xs.places.from (self.now.xs.places.to - self.now.xs.places.from) }
    {
        sum_of_products(self, overlap(self.layout.across(self.row), self.xs.places))
    }
}
