// What became of a tip: the bounds of its pressure, or why there are none.
ghost use Rattle.std.specs.Prelude.{◌≡◌, Bool};
ghost use Rattle.account.specs.declared.outcome.NoPair.TheVariants.{PastLimit};
ghost use Rattle.account.specs.Outcomes.{no_pair_words};

use cells::cell::Interval;
use cells::fault::CellFault;
use rounding::fault::Bound;
use std::fmt;

// A tip lacks something where a record that its pressure is worked out from reads as empty; else a bound is past the limit.
#[derive(Clone, Copy)]
pub enum NoPair<L> {
    Lacking(L),
    PastLimit(Bound),
}

pub type Outcome<L> = Result<Interval, NoPair<L>>;

impl<L> From<CellFault> for NoPair<L> {
    ghost from_gives = { λ f r. r ≡ PastLimit f.rounding.bound };

    fn from(fault: CellFault) -> NoPair<L> {
        NoPair::PastLimit(fault.rounding.bound)
    }
}

// What a tip can lack. How a line is read decides that, so each kind of line has a type of its own.
pub trait Reason {
    ghost own: { Self → Bool };

    // Whether the tip itself is at fault, and not a neighbour that it is worked out with.
    fn is_own(&self) -> bool
        ensures { result ≡ own self.now };
}

impl<L: fmt::Display> fmt::Display for NoPair<L> {
    ghost output = { no_pair_words L.output };

    fn fmt<W: fmt::Write>(&self, f: &mut fmt::Formatter<W>) -> fmt::Result {
        match self {
            NoPair::Lacking(lack) => lack.fmt(f),
            NoPair::PastLimit(Bound::Lower) => f.pad(
                "lower bound past the limit: nothing worked out",
            ),
            NoPair::PastLimit(Bound::Upper) => f.pad(
                "upper bound past the limit: nothing worked out",
            ),
        }
    }
}
