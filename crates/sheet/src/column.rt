// The questions about a whole column of records: its norms, its largest and its smallest cell, and whether it is enclosed in another.
// Each answers none where a cell is empty. Of a column without cells, which no sheet has, the one-norm is 0, and there is no largest
// and no smallest cell, and so no infinity-norm.
ghost use Rattle.std.specs.Prelude.{◌≡◌, ◌≤◌, length, IfSome, nat_lt};
ghost use Rattle.cells.specs.Cells.{read_as};
ghost use Rattle.sheet.specs.ColumnQuestions.{greater_size, lesser_size, exceeds, first_of, one_norm_of, infinity_norm_of, largest_of, smallest_of, enclosed_in};

use cells::cell::Record;
use cells::questions::inside;
use cells::reading::read;

// The greater of the sizes of a cell's bounds: no bound is beyond the limit.
fn greater_size(record: Record) -> Option<u32>
    ensures is { result ≡ greater_size (read_as «record») }
    ensures few { IfSome result (λ size. size ≤ 131071) }
{
    let i = read(record)?;
    Some(i.lower.unsigned_abs().max(i.upper.unsigned_abs()))
}

// The lesser of them.
fn lesser_size(record: Record) -> Option<u32>
    ensures { result ≡ lesser_size (read_as «record») }
{
    let i = read(record)?;
    Some(i.lower.unsigned_abs().min(i.upper.unsigned_abs()))
}

// The sum of the greater sizes, in steps.
pub(crate) fn one_norm(column: &[Record]) -> Option<u32>
    requires { length column.now ≤ 1024 }
    ensures { result ≡ one_norm_of column.now }
{
    let mut sum = 0;
    for record in column {
        sum += greater_size(*record)?;
    }
    Some(sum)
}

// The greatest of them, in steps.
pub(crate) fn infinity_norm(column: &[Record]) -> Option<u32>
    ensures { result ≡ infinity_norm_of column.now }
{
    largest(column).map(|(size, _)| size)
}

// The same size and the first row that has it.
pub(crate) fn largest(column: &[Record]) -> Option<(u32, usize)>
    ensures { result ≡ largest_of column.now }
{
    let mut first = None;
    for (row, record) in column.iter().enumerate() {
        first = first_greatest(first, greater_size(*record)?, row);
    }
    first
}

// A row with a size takes the place of the first greatest one so far only where it exceeds that.
fn first_greatest(first: Option<(u32, usize)>, size: u32, row: usize) -> Option<(u32, usize)>
    ensures { result ≡ first_of exceeds first size row }
{
    match first {
        Some((greatest, _)) if size <= greatest => first,
        _ => Some((size, row)),
    }
}

// The least of the lesser sizes, in steps, and the first row that has it.
pub(crate) fn smallest(column: &[Record]) -> Option<(u32, usize)>
    ensures { result ≡ smallest_of column.now }
{
    let mut first = None;
    for (row, record) in column.iter().enumerate() {
        first = first_least(first, lesser_size(*record)?, row);
    }
    first
}

// A row with a size takes the place of the first least one so far only where it is below that.
fn first_least(first: Option<(u32, usize)>, size: u32, row: usize) -> Option<(u32, usize)>
    ensures { result ≡ first_of nat_lt first size row }
{
    match first {
        Some((least, _)) if size >= least => first,
        _ => Some((size, row)),
    }
}

// Whether each cell is inside the one at the same row of the other column, which is as long.
pub(crate) fn enclosed(inner: &[Record], outer: &[Record]) -> bool
    ensures { result ≡ enclosed_in inner.now outer.now }
{
    inner
        .iter()
        .zip(outer)
        .all(|(record, around)| inside(read(*record), read(*around)))
}
