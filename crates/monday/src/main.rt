// The Monday account of the dam, whose tips are read by junction boxes: for each tip the bounds of its pore pressure, worked out from all
// readings of its box and with the pressures at its neighbours taken out, and whether the month's dip lies between them; for each box
// their sum; and how often the sheet was asked for something. All of it is read from the columns that the sheet posts.
#![tactic(auto)]

use account::printing::{Line, Words, print};
use anyhow::anyhow;
use notes::{instruments, notes};
use station::line::{BOXES_OF_A_LINE, TIPS_OF_A_LINE};
use station::logger::{Logged, by_tip};
use station::working::findings;

mod downstream;
mod notes;
mod records;
mod upstream;

// What a logger holds, in the order of the tips.
fn in_order(logged: &Logged, channels: &[usize; TIPS_OF_A_LINE]) -> anyhow::Result<Logged> {
    by_tip(logged, channels).map_err(|refusal| anyhow!(
        "the list of channels is refused: {refusal}"
    ))
}

fn main(rt: HostRuntime) -> anyhow::Result<()> {
    let up = in_order(&upstream::logged(), &upstream::CHANNELS)?;
    let down = in_order(&downstream::logged(), &downstream::CHANNELS)?;
    let [a, b, c, d] = upstream::boxes(&up.readings);
    let [e, f, g, h] = downstream::boxes(&down.readings);
    let found = findings(rt.alloc(), &[a, b, c, d, e, f, g, h])?;
    let up_notes = instruments(rt.alloc(), &up)?;
    let down_notes = instruments(rt.alloc(), &down)?;
    let lines = [
        Line {
            name: "UPSTREAM LINE",
            notes: up_notes.as_str(),
            tips: &found.tips[..TIPS_OF_A_LINE],
            totals: &found.totals[..BOXES_OF_A_LINE],
            first_box: 1,
        },
        Line {
            name: "DOWNSTREAM LINE",
            notes: down_notes.as_str(),
            tips: &found.tips[TIPS_OF_A_LINE..],
            totals: &found.totals[BOXES_OF_A_LINE..],
            first_box: BOXES_OF_A_LINE + 1,
        },
    ];
    let notes = notes(rt.alloc())?;
    let words = Words {
        notes: notes.as_str(),
        lacking: "lack a record, a factor or a neighbour",
    };
    print(&rt, words, &lines, found.calls)?;
    Ok(())
}
