// The calls and the refusals in words, for programs that print them. A refusal's numbers are printed by whoever wants them. Under a
// format such as `{:>8}` the words are cut and filled as any text is.
ghost use Rattle.std.specs.Prelude.{◌≡◌, Some};
ghost use Rattle.std.specs.Fmt.{styled_text};
ghost use Rattle.sheet.specs.Words.{call_word, refusal_words};

use crate::refusal::{CallName, Refusal};
use std::fmt;

impl fmt::Display for CallName {
    ghost output = { λ c. Some (call_word c) };

    ghost styled_output = { λ c s. Some (styled_text s (call_word c)) };

    fn fmt<W: fmt::Write>(&self, f: &mut fmt::Formatter<W>) -> fmt::Result {
        f.pad(match self {
            CallName::Open => "open",
            CallName::Set => "set",
            CallName::Begin => "begin",
            CallName::Dot => "dot",
            CallName::Sum => "sum",
            CallName::Blend => "blend",
            CallName::Product => "product",
            CallName::Solve => "solve",
            CallName::Join => "join",
            CallName::Copy => "copy",
            CallName::Permute => "permute",
            CallName::Post => "post",
            CallName::Withdraw => "withdraw",
            CallName::OneNorm => "one-norm",
            CallName::InfinityNorm => "infinity-norm",
            CallName::Largest => "largest",
            CallName::Smallest => "smallest",
            CallName::Width => "width",
            CallName::Middle => "middle",
            CallName::Enclosed => "enclosed",
            CallName::PermuteRun => "permutation of a run",
        })
    }
}

// What a refusal says: printed as it is, with no number.
fn words(refusal: Refusal) -> &'static str
    ensures { result.now ≡ refusal_words refusal }
{
    match refusal {
        Refusal::ScaleOutside => "the scale is not from 1 to 100000",
        Refusal::ShapeOutside => "not 1 to 1024 rows, 1 to 64 columns and at most 4096 cells",
        Refusal::WrongLength { .. } => "the supplied memory has not the length of the sheet",
        Refusal::NoSuchColumn { .. } => "there is no such column",
        Refusal::NoSuchRow { .. } => "there is no such row",
        Refusal::NoCell { .. } => "the bounds are out of order or beyond the limit",
        Refusal::LayoutTooLarge { .. } =>
            "the layout has more rows or columns than a column has cells",
        Refusal::DivisorHoldsZero { .. } => "a diagonal entry holds 0",
        Refusal::NoPermutation { .. } => "not a permutation of as many places",
        Refusal::BeyondLimit(_) => "a bound that was worked out is beyond the limit",
    }
}

impl fmt::Display for Refusal {
    ghost output = { λ r. Some (refusal_words r) };

    ghost styled_output = { λ r s. Some (styled_text s (refusal_words r)) };

    fn fmt<W: fmt::Write>(&self, f: &mut fmt::Formatter<W>) -> fmt::Result {
        f.pad(words(*self))
    }
}
