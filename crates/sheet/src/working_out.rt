// The loop that works out the rows of every call, in place: the draft holds the column as it reads, and row after row the new cell
// takes the place of the old one.
ghost use Rattle.std.specs.Prelude.{◌≡◌, ℕ, List, length, IfOk, MatchResult, true};
ghost use Rattle.arithmetic.specs.Values.{Value};
ghost use Rattle.cells.specs.Cells.{cell_at};
ghost use Rattle.cells.specs.Faults.{kept, in_row};
ghost use Rattle.sheet.specs.Answers.{empties_draft};
ghost use Rattle.sheet.specs.Checks.{granted, first_refusal, limits};
ghost use Rattle.sheet.specs.Faults.{in_call};
ghost use Rattle.sheet.specs.Memory.{blanks, written_rows};
ghost use Rattle.sheet.specs.Outcomes.{answer_of};
ghost use Rattle.sheet.specs.WorkingOrders.{rows_of};
ghost use Rattle.sheet.specs.WorkingRows.{Standing, AreInside, Stays, first_fault};
ghost use Rattle.sheet.specs.declared.order.WorkingOrder.{WorkingOrder};
ghost use Rattle.cells.specs.declared.cell.Record.{Record};

use crate::memory::clear;
use crate::order::WorkingOrder;
use crate::refusal::{CallName, Refusal, SheetFault};
use crate::rows::write_column;
use cells::cell::Record;
use cells::fault::CellFault;
use rounding::rest::Rounding;

// What a call works out of a column. It is a trait and no closure, since its ghost members name the old column, the new cells and the
// rows, and a contract can then be an equation.
pub(crate) trait RowFormula {
    ghost old: { Self → List Record };

    ghost new: { Self → ℕ → Value };

    ghost rows: { Self → WorkingOrder };

    // The column as it is before the call.
    fn column(&self) -> &[Record]
        ensures { result.now ≡ old self.now };

    fn order(&self) -> WorkingOrder
        ensures { result ≡ rows self.now };

    // The new cell of a row, or the fault of a bound past the limit. The draft holds the new cells of the rows that were worked before.
    fn record(
        &self,
        rounding: &mut Rounding,
        draft: &[Record],
        row: usize,
    ) -> Result<Record, CellFault>
        requires { Standing (rows self.now) (cell_at (old self.now)) (new self.now) row draft.now }
        ensures { result ≡ in_row row (kept (new self.now row)) };

    // laws: the rows are rows of the column, and the others stay
    ghost inside: { (f : Self) → AreInside (length (old f)) (rows f) };

    ghost stays: { (f : Self) → Stays (length (old f)) (rows f) (cell_at (old f)) (new f) };
}

// Works the rows in order, up to the first fault.
fn work_rows<F: RowFormula>(formula: &F, draft: &mut [Record]) -> Result<(), CellFault>
    requires { draft.old ≡ written_rows (length (F.RowFormula.old formula.now)) (cell_at (F.RowFormula.old formula.now)) }
    ensures fault { result ≡ first_fault (F.RowFormula.new formula.now) (rows_of (F.RowFormula.rows formula.now)) }
    ensures length { length draft.new ≡ length draft.old }
    ensures left { IfOk result (λ u. draft.new ≡ written_rows (length draft.old) (F.RowFormula.new formula.now)) }
{
    // the working order is among the laws of layouts; the call does nothing when the program runs
    layouts::laws::laws_stand();
    let mut rounding = Rounding::new();
    let order = formula.order();
    for step in 0..order.steps() {
        let row = order.row(step);
        draft[row] = formula.record(&mut rounding, draft, row)?;
    }
    Ok(())
}

// The same for a call on column k: a fault is told with both.
fn work_in_call<F: RowFormula>(
    call: CallName,
    k: usize,
    formula: &F,
    draft: &mut [Record],
) -> Result<(), SheetFault>
    requires { draft.old ≡ written_rows (length (F.RowFormula.old formula.now)) (cell_at (F.RowFormula.old formula.now)) }
    ensures fault { result ≡ in_call call k (first_fault (F.RowFormula.new formula.now) (rows_of (F.RowFormula.rows formula.now))) }
    ensures length { length draft.new ≡ length draft.old }
    ensures left { IfOk result (λ u. draft.new ≡ written_rows (length draft.old) (F.RowFormula.new formula.now)) }
{
    Ok(work_rows(formula, draft).map_err(|fault| (call, k, fault))?)
}

// The new column of a call on column k is drafted. No row that was worked before a fault is left in the draft.
pub(crate) fn work<F: RowFormula>(
    call: CallName,
    k: usize,
    formula: &F,
    draft: &mut [Record],
) -> Result<(), Refusal>
    requires { length draft.old ≡ length (F.RowFormula.old formula.now) }
    ensures answer { answer_of result ≡ first_refusal (limits call k (F.RowFormula.new formula.now) (rows_of (F.RowFormula.rows formula.now))) granted }
    ensures left { MatchResult result (λ u. draft.new ≡ written_rows (length draft.old) (F.RowFormula.new formula.now)) (λ r. (draft.new ≡ blanks (length draft.old)) × (empties_draft r ≡ true)) }
{
    write_column(formula.column(), draft);
    let came = work_in_call(call, k, formula, draft);
    if came.is_err() {
        clear(draft);
    }
    Ok(came?)
}
