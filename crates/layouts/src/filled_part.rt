// A part of a run of records in which no cell is empty.
ghost use Rattle.std.specs.Prelude.{◌≡◌, ◌<◌, ◌≤◌, true, MatchOption};
ghost use Rattle.cells.specs.Cells.{cell_value, cell_at};
ghost use Rattle.layouts.specs.Filled.{is_filled, Filled, Lacking};

use crate::entries::{filled_bounds, is_filled};
use cells::cell::{Cell, Places, Record};
use cells::reading::cell_at;

// That was settled for all of them beforehand, so none is tested for being empty again, however often a sum asks for it.
#[derive(Clone, Copy)]
pub(crate) struct FilledPart<'a> {
    pub(crate) run: &'a [Record],
    pub(crate) places: Places,
    ghost filled: { Filled run.now places.from places.to },
}

impl<'a> FilledPart<'a> {
    // Told by one of the cells, which is filled only where all of them are: None where it is empty. No other cell is looked at.
    pub(crate) fn told_by(
        run: &'a [Record],
        places: Places,
        teller: usize,
    ) -> Option<FilledPart<'a>>
        requires inside { places.from < places.to → (places.from ≤ teller) × (teller < places.to) }
        requires tells { is_filled (cell_at run.now teller) ≡ true → Filled run.now places.from places.to }
        ensures { MatchOption result (Lacking run.now places.from places.to) (λ part. (part.run.now ≡ run.now) × (part.places ≡ places)) }
    {
        if places.from == places.to || is_filled(cell_at(run, teller)) {
            Some(FilledPart { run, places })
        } else {
            None
        }
    }

    // The cell at a place of the part.
    pub(crate) fn cell(self, place: usize) -> Cell
        requires { (self.places.from ≤ place) × (place < self.places.to) }
        ensures { cell_value result ≡ cell_at self.entry.run.now place }
    {
        Some(filled_bounds(self.run[place]))
    }
}
