// Records read as cells, cells written as records, and the checked makers of the numbers with ranges: one maker each, since no two
// ranges have the same shape.
ghost use Rattle.std.specs.Prelude.{◌≡◌, ◌<◌, ◌≤◌, MatchOption};
ghost use Rattle.arithmetic.specs.Values.{bounds};
ghost use Rattle.cells.specs.Cells.{cell_value, read_as, written, cell_at};
ghost use Rattle.cells.specs.Scales.{IsScale};

use crate::cell::{Cell, EMPTY, Interval, Places, Record, Scale, Target, Terms};
use rounding::rest::dividing::LIMIT;

// What a record reads as: a record that breaks the rule of a cell reads as the empty one.
pub fn read(record: Record) -> Cell
    ensures { cell_value result ≡ read_as «record» }
{
    if record.lower < -LIMIT || record.upper > LIMIT || record.lower > record.upper {
        return None;
    }
    Some(Interval {
        lower: record.lower,
        upper: record.upper,
    })
}

// A record by its two numbers, lower first.
impl From<(i32, i32)> for Record {
    ghost from_gives = { λ a r. r ≡ record { lower = a.0; upper = a.1 } };

    fn from((lower, upper): (i32, i32)) -> Record {
        Record { lower, upper }
    }
}

// The record that is written for a cell. The other way is `read` by name: it loses what a broken record held.
impl From<Cell> for Record {
    ghost from_gives = { λ c r. r ≡ written (cell_value c) };

    fn from(cell: Cell) -> Record {
        match cell {
            None => EMPTY,
            Some(i) => Record {
                lower: i.lower,
                upper: i.upper,
            },
        }
    }
}

// The cell at a place of a run, empty past its end.
pub fn cell_at(run: &[Record], place: usize) -> Cell
    ensures { cell_value result ≡ cell_at run.now place }
{
    read(*run.get(place)?)
}

impl Target<'_> {
    // The cell that stands there before.
    pub fn old(self) -> Cell
        ensures { cell_value result ≡ cell_at self.entry.column.now self.entry.row }
    {
        cell_at(self.column, self.row)
    }
}

impl Scale {
    // None for a number below 1 or above 100,000.
    pub fn new(steps: i64) -> Option<Scale>
        ensures { MatchOption result (IsScale steps → ⊥) (λ s. IsScale steps × (s.steps ≡ steps)) }
    {
        if steps < 1 || steps > 100_000 {
            return None;
        }
        Some(Scale { steps })
    }

    // The cell of exactly one unit.
    pub fn one(self) -> Cell
        ensures { cell_value result ≡ bounds self.steps self.steps }
    {
        let steps = self.steps as i32;
        Some(Interval {
            lower: steps,
            upper: steps,
        })
    }
}

impl Terms {
    // None for a number above 1,024.
    pub fn new(count: usize) -> Option<Terms>
        ensures { MatchOption result (1024 < count) (λ t. (count ≤ 1024) × (t.count ≡ count)) }
    {
        if count > 1024 {
            return None;
        }
        Some(Terms { count })
    }
}

// The first places, as many as a sum has terms.
impl From<Terms> for Places {
    ghost from_gives = { λ t r. (r.from ≡ 0) × (r.to ≡ t.count) };

    fn from(terms: Terms) -> Places {
        Places {
            from: 0,
            to: terms.count,
        }
    }
}
