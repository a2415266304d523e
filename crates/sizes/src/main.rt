// Sheets at the bounds of what can be opened, over memory of the heap: the tallest, with as many columns as it can have, and one with a
// column too many.
#![tactic(auto)]

use cells::cell::EMPTY;
use sheet::states::Filling;
use std::io;

// Supplies as many records as the sheet asks for, and tells what its open answers.
fn try_to_open(rt: &(impl Print + AllocGlobal), rows: u16, columns: u16) -> io::Result<()> {
    let (rows, columns) = (usize::from(rows), usize::from(columns));
    let mut cells = vec![in rt.alloc(); EMPTY; rows * columns]?;
    let mut draft = vec![in rt.alloc(); EMPTY; rows]?;
    print!(rt; "A sheet of {rows} by {columns} cells: ")?;
    match Filling::open(100, rows, columns, &mut cells, &mut draft) {
        Ok(_) => println!(rt;
            "opened, over {} records and a draft of {}.",
            cells.len(),
            draft.len()
        ),
        Err(refusal) => println!(rt;
            "refused by number {}, call {}, column {}, row {}: {refusal}.",
            refusal.number(),
            refusal.call(),
            refusal.column(),
            refusal.row()
        ),
    }
}

fn main(rt: HostRuntime) -> io::Result<()> {
    try_to_open(&rt, 1024, 4)?;
    try_to_open(&rt, 1, 65)
}
