// What a line of the script is answered, as it is printed.
use rounding::fault::Bound;
use sheet::refusal::{CallName, Refusal};
use std::fmt;

#[derive(Clone, Copy)]
pub enum Answer {
    // the line breaks the format
    Malformed,
    // the state of the sheet takes no such call, or a name stands for nothing that it could be made with
    NotTaken,
    // there is no memory for the line
    NoMemory,
    Granted,
    Refused(Refusal),
    // a matrix with unfit figures
    Unfit,
    // a question about an empty cell
    Nothing,
    Size(u32),
    Steps(i32),
    SizeAt(u32, usize),
    Yes,
    No,
}

// A call by the word that the script has for it.
#[derive(Clone, Copy)]
struct Word(CallName);

impl fmt::Display for Word {
    fn fmt<W: fmt::Write>(&self, f: &mut fmt::Formatter<W>) -> fmt::Result {
        match self.0 {
            CallName::OneNorm => write!(f, "norm1"),
            CallName::InfinityNorm => write!(f, "norminf"),
            call => write!(f, "{call}"),
        }
    }
}

fn write_refusal<W: fmt::Write>(refusal: Refusal, f: &mut fmt::Formatter<W>) -> fmt::Result {
    let (number, call) = (refusal.number(), Word(refusal.call()));
    let (column, row) = (refusal.column(), refusal.row());
    write!(f, "refused {number} {call} {column} {row}")?;
    match refusal.bound() {
        None => Ok(()),
        Some(Bound::Lower) => write!(f, " lower"),
        Some(Bound::Upper) => write!(f, " upper"),
    }
}

impl fmt::Display for Answer {
    fn fmt<W: fmt::Write>(&self, f: &mut fmt::Formatter<W>) -> fmt::Result {
        match self {
            Answer::Malformed => write!(f, "malformed"),
            Answer::NotTaken => write!(f, "not taken"),
            Answer::NoMemory => write!(f, "no memory"),
            Answer::Granted => write!(f, "granted"),
            Answer::Refused(refusal) => write_refusal(*refusal, f),
            Answer::Unfit => write!(f, "refused 11 check 0 0"),
            Answer::Nothing => write!(f, "none"),
            Answer::Size(size) => write!(f, "{size}"),
            Answer::Steps(steps) => write!(f, "{steps}"),
            Answer::SizeAt(size, row) => write!(f, "{size} {row}"),
            Answer::Yes => write!(f, "yes"),
            Answer::No => write!(f, "no"),
        }
    }
}
