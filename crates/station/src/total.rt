// Why a box has no total.
ghost use Rattle.std.specs.Prelude.{◌≡◌, ◌<◌, Some};
ghost use Rattle.station.specs.Stops.{row_of};
ghost use Rattle.station.specs.Totals.{no_total, no_total_words};

use crate::line::{BOXES, TIPS_OF_A_BOX};
use crate::stop::{Stop, number_of};
use std::fmt;

// A tip of it has no pair, since a record is missing; or the box is stopped, and it is told by the number of which tip.
#[derive(Clone, Copy)]
pub enum NoTotal {
    TipWithoutPair,
    NotSolved(usize),
    NotWorkedOut(usize),
}

impl NoTotal {
    // Why the stopped box, the nth of the dam, has none.
    pub fn of(stop: Stop, nth: usize) -> NoTotal
        requires { (nth < BOXES) × (row_of stop < TIPS_OF_A_BOX) }
        ensures { result ≡ no_total nth stop }
    {
        match stop {
            Stop::OverZero(row) => NoTotal::NotSolved(number_of(nth, row)),
            Stop::BeyondLimit(fault) => NoTotal::NotWorkedOut(number_of(nth, fault.row)),
        }
    }
}

impl fmt::Display for NoTotal {
    ghost output = { λ n. Some (no_total_words n) };

    fn fmt<W: fmt::Write>(&self, f: &mut fmt::Formatter<W>) -> fmt::Result {
        match self {
            NoTotal::TipWithoutPair => f.write_str("no total: a tip of the box has no pair"),
            NoTotal::NotSolved(tip) => {
                write!(
                    f,
                    "not solved: the factor of tip {tip} has drifted over zero"
                )
            }
            NoTotal::NotWorkedOut(tip) => {
                write!(f, "not worked out: a bound at tip {tip} is past the limit")
            }
        }
    }
}
