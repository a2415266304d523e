// What the logger holds of a line, in the order of its channels, and the same in the order of the tips.
ghost use Rattle.std.specs.Prelude.{◌≡◌, true, IsOk, IfOk};
ghost use Rattle.sheet.specs.Permutations.{is_permutation, Gathers};

use crate::line::TIPS_OF_A_LINE;
use cells::cell::Record;
use sheet::permutation::permute_run;
use sheet::refusal::Refusal;

// The number of the instrument on each channel, and the reading that it left.
#[derive(Clone, Copy)]
pub struct Logged {
    pub instruments: [u32; TIPS_OF_A_LINE],
    pub readings: [Record; TIPS_OF_A_LINE],
}

// Tip by tip, where `channels` has the channel of each tip. Refused where it names a channel twice or one that there is not.
pub fn by_tip(logged: &Logged, channels: &[usize; TIPS_OF_A_LINE]) -> Result<Logged, Refusal>
    ensures granted { is_permutation TIPS_OF_A_LINE channels.now ≡ true → IsOk result }
    ensures in_order { IfOk result (λ tips. Gathers logged.now.instruments channels.now tips.instruments × Gathers logged.now.readings channels.now tips.readings) }
{
    let mut tips = *logged;
    permute_run(&logged.instruments, channels, &mut tips.instruments)?;
    permute_run(&logged.readings, channels, &mut tips.readings)?;
    Ok(tips)
}
