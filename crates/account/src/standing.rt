// Where a dip stands beside the pair of its tip.
ghost use Rattle.std.specs.Prelude.{◌≡◌, Some};
ghost use Rattle.cells.specs.Cells.{cell_value};
ghost use Rattle.account.specs.Standings.{dip_value, standing_by, standing_words};

use crate::outcome::Outcome;
use cells::cell::{Cell, Record};
use cells::reading::read;
use std::fmt;

// A dip is compared only with a tip that was worked out.
#[derive(Clone, Copy, PartialEq, Eq)]
pub enum Standing {
    Inside,
    Outside,
    NoDip,
    NotCompared,
}

impl fmt::Display for Standing {
    ghost output = { λ s. Some (standing_words s) };

    fn fmt<W: fmt::Write>(&self, f: &mut fmt::Formatter<W>) -> fmt::Result {
        f.pad(match self {
            Standing::Inside => "inside",
            Standing::Outside => "OUTSIDE",
            Standing::NoDip => "no dip",
            Standing::NotCompared => "-",
        })
    }
}

// The one-point cell of a dip, empty where none was taken. A dip beyond the limit has no such cell, and no pair reaches it.
pub fn dip_cell(dip: Option<i32>) -> Cell
    ensures { cell_value result ≡ dip_value dip }
{
    let steps = dip?;
    read(Record::from((steps, steps)))
}

// Where the dip of a tip stands, once it is known what became of the tip. `agreed` is what its pair and the cell of its dip have in
// common: not empty exactly where the dip lies in the pair.
pub fn compare<L: Drop>(outcome: Outcome<L>, dip: Option<i32>, agreed: Cell) -> Standing
    ensures { result ≡ standing_by outcome dip (cell_value agreed) }
{
    match (outcome, dip, agreed) {
        (_, None, _) => Standing::NoDip,
        (Err(_), Some(_), _) => Standing::NotCompared,
        (Ok(_), Some(_), Some(_)) => Standing::Inside,
        (Ok(_), Some(_), None) => Standing::Outside,
    }
}
