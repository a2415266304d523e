// What a tip of a junction box lacks.
ghost use Rattle.std.specs.Prelude.{◌≡◌, Some};
ghost use Rattle.std.specs.List.{list_all};
ghost use Rattle.cells.specs.Cells.{read_as};
ghost use Rattle.layouts.specs.Filled.{is_filled};
ghost use Rattle.station.specs.Lacks.{all_read, lack_of, own_lack, lack_words};

use crate::line::TIPS_OF_A_BOX;
use account::outcome::Reason;
use account::records::{Given, given_by, record_at};
use cells::cell::Record;
use cells::reading::read;
use std::fmt;

// Beside its own reading a tip can lack a neighbour's; and where the working out of its box is stopped, the tip that stopped it is told, by
// its number where it is a neighbour.
#[derive(Clone, Copy, PartialEq, Eq)]
pub enum Lack {
    NothingGiven,
    Broken,
    NeighbourMissing,
    Uncalibrated,
    NeighbourPastLimit(usize),
    FactorOverZero,
    NeighbourOverZero(usize),
}

impl Reason for Lack {
    ghost own = { own_lack };

    fn is_own(&self) -> bool {
        match self {
            Lack::NothingGiven | Lack::Broken | Lack::Uncalibrated | Lack::FactorOverZero => true,
            Lack::NeighbourMissing | Lack::NeighbourPastLimit(_) | Lack::NeighbourOverZero(_) => {
                false
            }
        }
    }
}

impl fmt::Display for Lack {
    ghost output = { λ l. Some (lack_words l) };

    fn fmt<W: fmt::Write>(&self, f: &mut fmt::Formatter<W>) -> fmt::Result {
        match self {
            Lack::NothingGiven => f.write_str("no reading: the instrument gave nothing"),
            Lack::Broken => f.write_str("no reading: its record is broken"),
            Lack::NeighbourMissing => f.write_str("no pair: another reading of its box is missing"),
            Lack::Uncalibrated => f.write_str("no pair: calibration, offset or factor missing"),
            Lack::NeighbourPastLimit(tip) => {
                write!(f, "no pair: a bound at tip {tip} is past the limit")
            }
            Lack::FactorOverZero => f.write_str("no pair: its factor has drifted over zero"),
            Lack::NeighbourOverZero(tip) => {
                write!(f, "no pair: the factor of tip {tip} is over zero")
            }
        }
    }
}

fn is_read(reading: Record) -> bool
    ensures { result ≡ is_filled (read_as reading) }
{
    read(reading).is_some()
}

fn all_read_of(readings: &[Record]) -> bool
    ensures { result ≡ list_all (λ r. is_filled (read_as r)) readings.now }
{
    readings.iter().all(|reading| is_read(*reading))
}

#[tactic(auto, using(crate::proofs::Three::all_of_three))]
fn are_all_read(readings: &[Record; TIPS_OF_A_BOX]) -> bool
    ensures { result ≡ all_read readings.now }
{
    all_read_of(readings)
}

// Why a tip without a pair has none. Behind a good reading another one of the box fails, since every reading of a box counts
// at each of its tips; and behind good readings it is the tip's calibration or its offset.
pub fn why(readings: &[Record; TIPS_OF_A_BOX], place: usize) -> Lack
    ensures { result ≡ lack_of readings.now place }
{
    let own = record_at(readings, place);
    match given_by(own) {
        Given::Nothing => Lack::NothingGiven,
        Given::Broken => Lack::Broken,
        Given::Good if are_all_read(readings) => Lack::Uncalibrated,
        Given::Good => Lack::NeighbourMissing,
    }
}
