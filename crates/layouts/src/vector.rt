// A run of records as the operand of a product, looked through once for empty cells.
ghost use Rattle.std.specs.Prelude.{◌≡◌, ◌≤◌, false, MatchOption};
ghost use Rattle.cells.specs.Cells.{cell_at};
ghost use Rattle.layouts.specs.Filled.{is_filled, Filled, Lacking};

use crate::entries::is_filled;
use crate::filled_part::FilledPart;
use crate::lines::whole;
use cells::cell::Record;
use cells::reading::read;

// Its first `filled` cells are not empty, and the next one is: past the end of the run every cell is.
#[derive(Clone, Copy)]
pub struct Vector<'a> {
    pub run: &'a [Record],
    pub filled: usize,
    ghost before: { Filled run.now 0 filled },
    ghost next: { is_filled (cell_at run.now filled) ≡ false },
}

impl<'a> Vector<'a> {
    pub fn of(run: &'a [Record]) -> Vector<'a>
        ensures { result.run.now ≡ run.now }
    {
        let first_empty = run.iter().position(|record| !is_filled(read(*record)));
        Vector {
            run,
            filled: first_empty.unwrap_or(run.len()),
        }
    }

    // Its first n cells, none where one of them is empty.
    pub(crate) fn first(self, n: usize) -> Option<FilledPart<'a>>
        requires { n ≤ 1024 }
        ensures { MatchOption result (Lacking self.entry.run.now 0 n) (λ part. (part.run.now ≡ self.entry.run.now) × (part.places.from ≡ 0) × (part.places.to ≡ n)) }
    {
        if n <= self.filled {
            Some(FilledPart {
                run: self.run,
                places: whole(n),
            })
        } else {
            None
        }
    }
}
