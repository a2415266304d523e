// A tip's own record in a run, the record of an instrument that gave nothing, and what a record gives.
ghost use Rattle.std.specs.Prelude.{◌≡◌, slice_index_or};
ghost use Rattle.cells.specs.Cells.{blank};
ghost use Rattle.account.specs.Lacks.{is_blank, given_by};

use cells::cell::{EMPTY, Record};
use cells::reading::read;

// The two numbers of an instrument that gave nothing.
pub const NOTHING: (i32, i32) = (EMPTY.lower, EMPTY.upper);

// The record at a place of a run, the empty one past its end.
pub fn record_at(run: &[Record], place: usize) -> Record
    ensures { result ≡ slice_index_or run.now place blank }
{
    run.get(place).copied().unwrap_or(EMPTY)
}

// Whether a record is the one that an instrument leaves where it gives nothing.
pub fn is_blank(record: Record) -> bool
    ensures { result ≡ is_blank «record» }
{
    record == EMPTY
}

// What an instrument's record gives: nothing, where the instrument left the empty record; no cell, where the record was spoilt
// later and breaks the rule of a cell; or a good reading.
#[derive(Clone, Copy)]
pub enum Given {
    Nothing,
    Broken,
    Good,
}

pub fn given_by(record: Record) -> Given
    ensures { result ≡ given_by «record» }
{
    if is_blank(record) {
        return Given::Nothing;
    }
    match read(record) {
        None => Given::Broken,
        Some(_) => Given::Good,
    }
}
