// The loop that writes a new column to the draft.
ghost use Rattle.std.specs.Prelude.{◌≡◌, ℕ, length};
ghost use Rattle.arithmetic.specs.Values.{Value};
ghost use Rattle.cells.specs.Cells.{written, cell_at};
ghost use Rattle.sheet.specs.Memory.{written_rows};

use cells::cell::Record;
use cells::reading::read;

// The cells of a new column, each worked out by itself. It is a trait and no closure, since its ghost member names the cells, and a
// contract can then be an equation.
pub(crate) trait Rows {
    ghost new: { Self → ℕ → Value };

    fn record(&self, row: usize) -> Record
        ensures { result ≡ written (new self.now row) };
}

// Writes every row of the draft.
pub(crate) fn write_rows<R: Rows>(rows: &R, draft: &mut [Record])
    ensures { draft.new ≡ written_rows (length draft.old) (R.Rows.new rows.now) }
{
    for (row, place) in draft.iter_mut().enumerate() {
        *place = rows.record(row);
    }
}

// Writes a column as it reads. It is as long as the draft, so that no row is asked whether it is there.
pub(crate) fn write_column(column: &[Record], draft: &mut [Record])
    requires { length column.now ≡ length draft.old }
    ensures { draft.new ≡ written_rows (length draft.old) (cell_at column.now) }
{
    for (row, place) in draft.iter_mut().enumerate() {
        *place = Record::from(read(column[row]));
    }
}
