// What the account says of a tip.
ghost use Rattle.std.specs.Prelude.{◌≡◌};
ghost use Rattle.cells.specs.Cells.{cell_value};
ghost use Rattle.account.specs.Standings.{standing_by};

use crate::outcome::Outcome;
use crate::standing::{Standing, compare};
use cells::cell::{Cell, Record};

// The number is the one that the warden knows the tip by, its row counted from 1; the reading is the record that its instrument left.
#[derive(Clone, Copy)]
pub struct Finding<L> {
    pub number: usize,
    pub reading: Record,
    pub dip: Option<i32>,
    pub outcome: Outcome<L>,
    pub standing: Standing,
}

impl<L: Copy> Finding<L> {
    // `agreed` is what the pair and the cell of the dip have in common.
    pub fn new(
        number: usize,
        reading: Record,
        dip: Option<i32>,
        outcome: Outcome<L>,
        agreed: Cell,
    ) -> Finding<L>
        ensures { result ≡ record { number = number; reading = reading; dip = dip; outcome = outcome; standing = standing_by outcome dip (cell_value agreed) } }
    {
        Finding {
            number,
            reading,
            dip,
            outcome,
            standing: compare(outcome, dip, agreed),
        }
    }
}
