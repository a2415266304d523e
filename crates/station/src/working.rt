// Working out the dam: what became of each tip, where its dip stands, and the total of each box.
ghost use Rattle.std.specs.Prelude.{◌≡◌, ◌<◌, IfOk, MatchResult, vec_len, Ok, Err};
ghost use Rattle.std.specs.Result.{result_err};
ghost use Rattle.cells.specs.Cells.{cell_value};
ghost use Rattle.account.specs.declared.outcome.NoPair.TheVariants.{Lacking};
ghost use Rattle.account.specs.Outcomes.{told, to_tell};
ghost use Rattle.station.specs.Counts.{all_calls};
ghost use Rattle.station.specs.Findings.{box_total, said, unless_stopped, AllFound, AllTotals, ShownTightly};
ghost use Rattle.station.specs.Lacks.{lack_of};
ghost use Rattle.station.specs.Stops.{stopped, stop_row};
ghost use Rattle.station.specs.Totals.{no_total};

use crate::job::Memory;
use crate::lack::{Lack, why};
use crate::line::{BOXES, Junction, TIPS_OF_A_BOX};
use crate::stop::{Stop, number_of};
use crate::total::NoTotal;
use account::finding::Finding;
use account::outcome::{NoPair, Outcome};
use account::records::record_at;
use account::tally::Tally;
use cells::cell::Cell;
use std::alloc::{AllocError, Global};

// What became of the tip at a place of a box, the nth of the dam: its pair, as the sheet has it, or why it has none.
fn became(
    stop: Option<Stop>,
    pair: Cell,
    junction: &Junction,
    nth: usize,
    place: usize,
) -> Outcome<Lack>
    requires number { (nth < BOXES) × (stop_row stop < TIPS_OF_A_BOX) }
    ensures { told result ≡ to_tell (lack_of junction.now.readings place) (unless_stopped stop (stopped nth place) (Ok (cell_value pair))) }
{
    if let Some(stop) = stop {
        return Err(stop.at(nth, place));
    }
    pair.ok_or_else(|| NoPair::Lacking(why(&junction.readings, place)))
}

// The total of a box; there is none where the box is stopped.
fn total_of(came: Result<Outcome<NoTotal>, Stop>, nth: usize) -> Outcome<NoTotal>
    requires number { (nth < BOXES) × (stop_row (result_err came) < TIPS_OF_A_BOX) }
    ensures { MatchResult came (λ total. result ≡ total) (λ stop. result ≡ Err (Lacking (no_total nth stop))) }
{
    match came {
        Ok(total) => total,
        Err(stop) => Err(NoPair::Lacking(NoTotal::of(stop, nth))),
    }
}

// What is found of the dam: of each tip, and the total of each box, both in the order of the dam; and the calls of its sheet.
#[derive(Drop)]
pub struct Found {
    pub tips: Vec<Finding<Lack>>,
    pub totals: Vec<Outcome<NoTotal>>,
    pub calls: Tally,
}

#[tactic(auto, using(crate::proofs::Counts::no_boxes))]
pub fn findings(heap: Global, dam: &[Junction; BOXES]) -> Result<Found, AllocError>
    ensures { IfOk result (λ f. (vec_len f.tips ≡ 24) × (vec_len f.totals ≡ 8) × AllFound dam.now 24 f.tips.items × AllTotals dam.now 8 f.totals.items × (f.calls ≡ all_calls dam.now) × ShownTightly dam.now) }
{
    // what the pairs mean rests on the laws of cells and of layouts; the calls do nothing when the program runs
    cells::laws::laws_stand();
    layouts::laws::laws_stand();
    sheet::laws::calls_stand();
    let mut memory = Memory::new();
    let mut sheet = memory.start(dam);
    let mut tips = Vec::new(heap);
    let mut totals = Vec::new(heap);
    for (nth, junction) in dam.iter().enumerate() {
        let (next, came) = memory.run(sheet, nth, junction);
        sheet = next;
        totals.push(total_of(came, nth))?;
        let stop = came.err();
        // a place is one in every run of the box; over the dips in place of a range, the loop's proof did not close
        for place in 0..TIPS_OF_A_BOX {
            let outcome = became(stop, memory.pair(nth, place), junction, nth, place);
            let reading = record_at(&junction.readings, place);
            let dip = junction.dips[place];
            let agreed = memory.agreed(nth, place);
            let number = number_of(nth, place);
            tips.push(Finding::new(number, reading, dip, outcome, agreed))?;
        }
    }
    let calls = memory.calls();
    Ok(Found {
        tips,
        totals,
        calls,
    })
}
