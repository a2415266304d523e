// The numbers of the account.
ghost use Rattle.std.specs.Prelude.{◌≡◌, IfOk, string_bytes};
ghost use Rattle.account.specs.Texts.{minus_text, kpa_text, dip_text};

use std::alloc::{AllocError, Global};

fn minus(steps: i32) -> &'static str
    ensures { result.now ≡ minus_text steps }
{
    if steps < 0 { "-" } else { "" }
}

// Steps as kPa with two decimals. The sign is written apart, since the whole number of -0.03 could not carry it.
// A text and no `Display`: the table pads it, and only a text that is there as a whole can be padded.
pub fn kpa(heap: Global, steps: i32) -> Result<String, AllocError>
    ensures { IfOk result (λ s. string_bytes s ≡ kpa_text steps) }
{
    let sign = minus(steps);
    let size = steps.unsigned_abs();
    let whole = size / 100;
    let tenths = size / 10 % 10;
    let hundredths = size % 10;
    format!(in heap; "{sign}{whole}.{tenths}{hundredths}")
}

// A dip in kPa, or a dash where none was taken.
pub fn dip(heap: Global, dip: Option<i32>) -> Result<String, AllocError>
    ensures { IfOk result (λ s. string_bytes s ≡ dip_text dip) }
{
    match dip {
        Some(steps) => kpa(heap, steps),
        None => String::from_str(heap, "-"),
    }
}
