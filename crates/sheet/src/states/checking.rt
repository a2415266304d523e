// The checks that calls of a working sheet share: each looks at one thing, or at a few in rising number.
ghost use Rattle.std.specs.Prelude.{◌≡◌, [], ◌∷◌, map, ◌<◌, ◌≤◌, true, false, IfOk, MatchResult};
ghost use Rattle.layouts.specs.Orders.{rows_in_order};
ghost use Rattle.sheet.specs.Checks.{granted, check, first_refusal, column_named, has_room, divides};
ghost use Rattle.sheet.specs.Memory.{has_both};
ghost use Rattle.sheet.specs.Outcomes.{answer_of};
ghost use Rattle.sheet.specs.declared.refusal.Refusal.TheVariants.{WrongLength, NoSuchColumn, NoSuchRow};

use crate::refusal::{CallName, Refusal};
use crate::states::Working;
use cells::cell::Record;
use layouts::layout::{Layout, Triangular};
use layouts::solve::first_zero;

impl Working {
    pub(super) fn check_lengths(
        &self,
        call: CallName,
        column: usize,
        cells: &[Record],
        draft: &[Record],
    ) -> Result<(), Refusal>
        ensures { MatchResult result (λ u. has_both self.now.shape cells.now draft.now ≡ true) (λ r. (has_both self.now.shape cells.now draft.now ≡ false) × (r ≡ WrongLength call column)) }
    {
        if self.shape.has_both(cells, draft) {
            Ok(())
        } else {
            Err(Refusal::WrongLength { call, column })
        }
    }

    pub(super) fn check_column(&self, call: CallName, column: usize) -> Result<(), Refusal>
        ensures { MatchResult result (λ u. column < self.now.shape.columns) (λ r. (self.now.shape.columns ≤ column) × (r ≡ NoSuchColumn call column)) }
    {
        if column < self.shape.columns {
            Ok(())
        } else {
            Err(Refusal::NoSuchColumn { call, column })
        }
    }

    // The lengths, the target and one other column.
    pub(super) fn check_columns(
        &self,
        call: CallName,
        k: usize,
        x: usize,
        cells: &[Record],
        draft: &[Record],
    ) -> Result<(), Refusal>
        ensures answer { answer_of result ≡ first_refusal (check (has_both self.now.shape cells.now draft.now) (WrongLength call k) ∷ (column_named self.now.shape call k ∷ (column_named self.now.shape call x ∷ []))) granted }
        ensures passed { IfOk result (λ u. (has_both self.now.shape cells.now draft.now ≡ true) × (k < self.now.shape.columns) × (x < self.now.shape.columns)) }
    {
        self.check_lengths(call, k, cells, draft)?;
        self.check_column(call, k)?;
        self.check_column(call, x)
    }

    pub(super) fn check_row(&self, call: CallName, column: usize, row: usize) -> Result<(), Refusal>
        ensures { MatchResult result (λ u. row < self.now.shape.rows) (λ r. (self.now.shape.rows ≤ row) × (r ≡ NoSuchRow call column row)) }
    {
        if row < self.shape.rows {
            Ok(())
        } else {
            Err(Refusal::NoSuchRow { call, column, row })
        }
    }

    // A layout has at most as many rows, and as many columns, as a column has cells.
    pub(super) fn check_room<L: Layout>(
        &self,
        call: CallName,
        column: usize,
        layout: &L,
    ) -> Result<(), Refusal>
        ensures answer { answer_of result ≡ first_refusal (has_room self.now.shape call column (L.Layout.meaning layout.now) ∷ []) granted }
        ensures passed { IfOk result (λ u. (L.Layout.meaning layout.now).rows ≤ self.now.shape.rows) }
    {
        let most = self.shape.rows;
        if layout.rows() <= most && layout.columns() <= most {
            Ok(())
        } else {
            Err(Refusal::LayoutTooLarge { call, column })
        }
    }

    // No diagonal entry that is not empty holds 0. All are looked at, in working order, before any row is worked.
    pub(super) fn check_divisors<T: Triangular>(
        &self,
        column: usize,
        layout: &T,
    ) -> Result<(), Refusal>
        ensures { answer_of result ≡ first_refusal (map (divides column (T.Layout.meaning layout.now)) (rows_in_order (T.Triangular.half layout.now) (T.Layout.meaning layout.now).rows)) granted }
    {
        match first_zero(layout) {
            None => Ok(()),
            Some(row) => Err(Refusal::DivisorHoldsZero { column, row }),
        }
    }
}
