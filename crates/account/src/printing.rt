// The account as it is printed: a heading; for each line its tips, its boxes, the counts and what to do next; and the calls of the sheet.
use crate::finding::Finding;
use crate::groups::{Group, Tips, count};
use crate::outcome::{NoPair, Outcome, Reason};
use crate::tally::Tally;
use crate::units::UNIT;
use crate::{bar, texts};
use cells::cell::Interval;
use rounding::rest::dividing::LIMIT;
use std::{fmt, io};

// What a program says in its own words: `notes` are the lines below the scale, each with its line end, and `lacking` are the
// words that follow the count of the tips that lack something.
#[derive(Clone, Copy)]
pub struct Words<'a> {
    pub notes: &'a str,
    pub lacking: &'a str,
}

// One line of the dam: its name, the lines below that, each with its line end, and what is found of its tips and of its boxes, both in
// the order of the line. Its first box has the number `first_box`.
#[derive(Clone, Copy)]
pub struct Line<'a, L, T> {
    pub name: &'a str,
    pub notes: &'a str,
    pub tips: &'a [Finding<L>],
    pub totals: &'a [Outcome<T>],
    pub first_box: usize,
}

fn print_heading(rt: &(impl Print + AllocGlobal), notes: &str) -> io::Result<()> {
    let limit = texts::kpa(rt.alloc(), LIMIT)?;
    println!(rt;
        "MONDAY ACCOUNT OF THE DAM: pore pressure at the tips of each line, beside the month's standpipe dips"
    )?;
    println!(rt;
        "Scale: {UNIT} steps to one unit; one step is 0.01 kPa. Limit of a bound: {LIMIT} steps, {limit} kPa."
    )?;
    print!(rt; "{notes}")?;
    println!(rt;
        "Bar: 10 kPa to a character; = the pair, o the dip, @ both in one; off the scale, shown at its edge."
    )
}

fn print_title(rt: &impl Print, name: &str, notes: &str) -> io::Result<()> {
    println!(rt)?;
    println!(rt; "{name}")?;
    println!(rt; "{notes}")?;
    println!(rt;
        "Tip   bounds in steps       bounds in kPa          dip  the dip   pair and dip on a scale in kPa"
    )?;
    println!(rt;
        "       lower to   upper     lower to    upper   in kPa  lies      0         100       200       300    400"
    )
}

// The bounds of a tip or of a box, in steps and in kPa.
fn print_bounds(rt: &(impl Print + AllocGlobal), number: usize, pair: Interval) -> io::Result<()> {
    let lower = texts::kpa(rt.alloc(), pair.lower)?;
    let upper = texts::kpa(rt.alloc(), pair.upper)?;
    print!(rt;
        "{number:>3}  {:>7} to {:>7}  {lower:>8} to {upper:>8}",
        pair.lower, pair.upper
    )
}

// As wide, where there are none.
fn print_no_bounds(rt: &impl Print, number: usize) -> io::Result<()> {
    print!(rt; "{number:>3}  {:>9}{:>9} {:>11}{:>10}", "-", "", "-", "")
}

fn print_pair<L>(
    rt: &(impl Print + AllocGlobal),
    finding: &Finding<L>,
    pair: Interval,
) -> io::Result<()> {
    let bar = bar::text(rt.alloc(), pair, finding.dip)?;
    print_bounds(rt, finding.number, pair)?;
    print_dip(rt, finding)?;
    println!(rt; "[{bar}]")
}

fn print_no_pair<L: fmt::Display>(
    rt: &(impl Print + AllocGlobal),
    finding: &Finding<L>,
    no_pair: &NoPair<L>,
) -> io::Result<()> {
    print_no_bounds(rt, finding.number)?;
    print_dip(rt, finding)?;
    println!(rt; "{no_pair}")
}

fn print_dip<L>(rt: &(impl Print + AllocGlobal), finding: &Finding<L>) -> io::Result<()> {
    let dip = texts::dip(rt.alloc(), finding.dip)?;
    print!(rt; "  {dip:>7}  {:<7}  ", finding.standing)
}

fn print_finding<L: fmt::Display>(
    rt: &(impl Print + AllocGlobal),
    finding: &Finding<L>,
) -> io::Result<()> {
    match &finding.outcome {
        Ok(pair) => print_pair(rt, finding, *pair),
        Err(no_pair) => print_no_pair(rt, finding, no_pair),
    }
}

fn print_total<T: fmt::Display>(
    rt: &(impl Print + AllocGlobal),
    number: usize,
    total: &Outcome<T>,
) -> io::Result<()> {
    match total {
        Ok(sum) => {
            print_bounds(rt, number, *sum)?;
            println!(rt)
        }
        Err(no_sum) => {
            print_no_bounds(rt, number)?;
            println!(rt; "  {no_sum}")
        }
    }
}

// The sum of the pairs of each box.
fn print_totals<T: fmt::Display>(
    rt: &(impl Print + AllocGlobal),
    first_box: usize,
    totals: &[Outcome<T>],
) -> io::Result<()> {
    println!(rt)?;
    println!(rt; "Box   sum in steps          sum in kPa")?;
    println!(rt; "       lower to   upper     lower to    upper")?;
    for (number, total) in (first_box..).zip(totals) {
        print_total(rt, number, total)?;
    }
    println!(rt)
}

fn print_counts<L: Reason>(
    rt: &impl Print,
    findings: &[Finding<L>],
    lacking_words: &str,
) -> io::Result<()> {
    let worked_out = count(findings, Group::WorkedOut);
    let lacking = count(findings, Group::Lacking);
    let past_limit = count(findings, Group::PastLimit);
    println!(rt;
        "Tips: {worked_out} worked out, {lacking} {lacking_words}, {past_limit} past the limit."
    )?;
    let inside = count(findings, Group::Inside);
    let outside = count(findings, Group::Outside);
    let no_dip = count(findings, Group::NoDip);
    let not_compared = count(findings, Group::NotCompared);
    println!(rt;
        "Dips: {inside} inside, {outside} outside, {no_dip} none, {not_compared} not compared."
    )
}

// What to do for the tips of each group that has any, the most pressing first.
const TASKS: [(Group, &str); 3] = [
    (Group::Outside, "repeat the dip at"),
    (Group::AtFault, "inspect instrument, cable and seal at"),
    (Group::NoDip, "take the dip at"),
];

fn print_next<L: Reason + Copy>(rt: &impl Print, findings: &[Finding<L>]) -> io::Result<()> {
    print!(rt; "Next:")?;
    // a tip whose dip lies inside leaves nothing to do
    if findings.iter().all(|f| f.is_in(Group::Inside)) {
        return println!(rt; " nothing, every dip lies inside.");
    }
    let due = TASKS
        .into_iter()
        .filter(|(group, _)| findings.iter().any(|f| f.is_in(*group)));
    // no `write_joined`: joined, what is due would need a type of its own with a `Display`
    for (k, (group, task)) in due.enumerate() {
        let separator = if k == 0 { "" } else { ";" };
        print!(rt; "{separator} {task} {}", Tips { findings, group })?;
    }
    println!(rt; ".")
}

fn print_line<L: Reason + fmt::Display + Copy, T: fmt::Display>(
    rt: &(impl Print + AllocGlobal),
    line: &Line<'_, L, T>,
    lacking_words: &str,
) -> io::Result<()> {
    print_title(rt, line.name, line.notes)?;
    for finding in line.tips {
        print_finding(rt, finding)?;
    }
    print_totals(rt, line.first_box, line.totals)?;
    print_counts(rt, line.tips, lacking_words)?;
    print_next(rt, line.tips)
}

// Every call of the sheet is counted: its open, each set, its begin, each call on a column, and each post.
fn print_calls(rt: &impl Print, calls: Tally) -> io::Result<()> {
    println!(rt)?;
    println!(rt;
        "Calls: {} granted, {} refused, {} posted. Of the one sheet, with its open, sets, begin and posts.",
        calls.granted, calls.refused, calls.posted
    )
}

// The lines of the dam one after the other, and the calls of its sheet.
pub fn print<L: Reason + fmt::Display + Copy, T: fmt::Display>(
    rt: &(impl Print + AllocGlobal),
    words: Words,
    lines: &[Line<'_, L, T>],
    calls: Tally,
) -> io::Result<()> {
    print_heading(rt, words.notes)?;
    for line in lines {
        print_line(rt, line, words.lacking)?;
    }
    print_calls(rt, calls)
}

#[cfg(test)]
mod tests {
    use super::*;
    use cells::cell::EMPTY;
    use rounding::fault::Bound;

    #[derive(Clone, Copy)]
    struct Silent;

    impl Reason for Silent {
        ghost use Rattle.std.specs.Prelude.{true};

        ghost own = { λ _. true };

        fn is_own(&self) -> bool {
            true
        }
    }

    impl fmt::Display for Silent {
        fn fmt<W: fmt::Write>(&self, f: &mut fmt::Formatter<W>) -> fmt::Result {
            f.pad("silent")
        }
    }

    #[test]
    fn prints_a_pair_a_lack_and_a_bound_past_the_limit(rt: HostRuntime) -> io::Result<()> {
        let pair = Interval {
            lower: -23,
            upper: 39,
        };
        let findings = [
            Finding::new(1, EMPTY, Some(10), Ok(pair), Some(pair)),
            Finding::new(2, EMPTY, None, Err(NoPair::Lacking(Silent)), None),
            Finding::new(
                3,
                EMPTY,
                Some(20),
                Err(NoPair::PastLimit(Bound::Upper)),
                None,
            ),
        ];
        let words = Words {
            notes: "",
            lacking: "silent",
        };
        let totals = [
            Ok(pair),
            Err(NoPair::Lacking(Silent)),
            Err(NoPair::PastLimit(Bound::Lower)),
        ];
        let line = Line {
            name: "LINE",
            notes: "",
            tips: &findings,
            totals: &totals,
            first_box: 1,
        };
        let calls = Tally {
            granted: 3,
            refused: 1,
            posted: 1,
        };
        print(&rt, words, &[line], calls)
    }
}
