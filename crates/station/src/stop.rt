// What stops the working out of a box, told as the warden knows the tips.
ghost use Rattle.std.specs.Prelude.{◌≡◌, ◌<◌, ◌+◌, ◌*◌};
ghost use Rattle.station.specs.Stops.{number_of, stopped, row_of};

use crate::lack::Lack;
use crate::line::{BOXES, TIPS_OF_A_BOX};
use account::outcome::NoPair;
use cells::fault::CellFault;
use sheet::states::Working;

// A factor on the diagonal holds 0, so that it cannot be divided by; or a bound is past the limit.
#[derive(Clone, Copy)]
pub enum Stop {
    OverZero(usize),
    BeyondLimit(CellFault),
}

// A step of a box's job that was stopped, with the sheet, which goes on.
#[derive(Drop)]
pub struct Stopped {
    pub stop: Stop,
    pub sheet: Working,
}

// The number that the warden knows the tip at a place of a box by.
pub fn number_of(nth: usize, place: usize) -> usize
    requires { (nth < BOXES) × (place < TIPS_OF_A_BOX) }
    ensures { result ≡ number_of nth place }
{
    nth * TIPS_OF_A_BOX + place + 1
}

impl Stop {
    // Why the tip at a place of the stopped box has no pair.
    pub fn at(self, nth: usize, place: usize) -> NoPair<Lack>
        requires { (nth < BOXES) × (row_of self < TIPS_OF_A_BOX) }
        ensures { result ≡ stopped nth place self }
    {
        match self {
            Stop::OverZero(row) if place == row => NoPair::Lacking(Lack::FactorOverZero),
            Stop::OverZero(row) => NoPair::Lacking(Lack::NeighbourOverZero(number_of(nth, row))),
            Stop::BeyondLimit(fault) if place == fault.row => NoPair::from(fault),
            Stop::BeyondLimit(fault) => NoPair::Lacking(Lack::NeighbourPastLimit(number_of(
                nth, fault.row,
            ))),
        }
    }
}
