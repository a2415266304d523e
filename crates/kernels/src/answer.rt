// An answer as C reads it.
ghost use Rattle.std.specs.Prelude.{◌≡◌};
ghost use Rattle.sheet.specs.Checks.{granted, refused};
ghost use Rattle.kernels.specs.Whole.{answer_record};

use rounding::fault::Bound;
use sheet::refusal::Refusal;

// An enum does not cross to C: a granted call has the number 0, a refusal its own, and the row and the bound that it names.
#[repr(C)]
#[derive(Clone, Copy)]
pub struct AnswerRecord {
    pub number: u32,
    pub row: usize,
    pub upper: bool,
}

impl AnswerRecord {
    pub(crate) fn granted() -> AnswerRecord
        ensures { result ≡ answer_record granted }
    {
        AnswerRecord {
            number: 0,
            row: 0,
            upper: false,
        }
    }
}

impl From<Refusal> for AnswerRecord {
    ghost from_gives = { λ refusal r. r ≡ answer_record (refused refusal) };

    fn from(refusal: Refusal) -> AnswerRecord {
        AnswerRecord {
            number: refusal.number(),
            row: refusal.row(),
            upper: matches!(refusal.bound(), Some(Bound::Upper)),
        }
    }
}
