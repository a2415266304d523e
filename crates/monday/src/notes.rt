// The lines of the account that this station adds in its own words.
use station::line::TIPS_OF_A_BOX;
use station::logger::Logged;
use std::alloc::{AllocError, Global};
use std::fmt;

// The numbers of instruments, one after the other.
#[derive(Clone, Copy)]
struct Numbers<'a> {
    instruments: &'a [u32],
}

impl fmt::Display for Numbers<'_> {
    fn fmt<W: fmt::Write>(&self, f: &mut fmt::Formatter<W>) -> fmt::Result {
        f.write_joined(self.instruments.iter(), ", ")
    }
}

// How the pressures come about, for the warden.
pub fn notes(heap: Global) -> Result<String, AllocError> {
    format!(in heap;
        "Boxes: every {0} tips share one, calibrated by a band matrix, since neighbours leak a little into one another.\n\
         A tip shows a little of the pressures at those before it in its box: a triangle of factors takes that out.\n\
         Where a reading is missing, a bound past the limit or a factor over zero, none of the {0} tips gets a pair:\n\
         nothing is posted of a call that is refused, and the other boxes are not touched.\n",
        TIPS_OF_A_BOX
    )
}

// The instruments of a line, in the order of its tips.
pub fn instruments(heap: Global, tips: &Logged) -> Result<String, AllocError> {
    format!(in heap;
        "Instruments, tip by tip: {}.\n",
        Numbers {
            instruments: &tips.instruments
        }
    )
}
