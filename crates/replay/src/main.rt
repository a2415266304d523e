// A script of calls, read from standard input and made one after the other through the calls of one sheet: an answer for each line, then
// what the sheet holds. docs/REPLAY.md has the format. It ends with status 0 whatever it reads.
#![tactic(auto)]

mod answer;
mod lines;
mod memory;
mod names;
mod stage;

use std::io::Read;

fn main(rt: HostRuntime) {
    let mut script = Vec::new(rt.alloc());
    // what could be read of it is replayed
    let _ = rt.reader().read_to_end(&mut script);
    let _ = lines::run(&rt, &script);
}
