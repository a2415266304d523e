// The calls of a working sheet that take cells over as they are, or joined.
ghost use Rattle.std.specs.Prelude.{◌≡◌, ◌<◌, true, false, IfOk, MatchResult};
ghost use Rattle.sheet.specs.Answers.{working, drafted};
ghost use Rattle.sheet.specs.Calls.{join, copy, permute};
ghost use Rattle.sheet.specs.Checks.{granted, refused};
ghost use Rattle.sheet.specs.Memory.{has_both, column, cells_in, written_rows};
ghost use Rattle.sheet.specs.NewColumns.{new_column};
ghost use Rattle.sheet.specs.Outcomes.{answered_call, Calls, Drafts};

use crate::new_columns::{Joined, Permuted};
use crate::permutation::is_permutation;
use crate::refusal::{CallName, Refusal};
use crate::rows::{write_column, write_rows};
use crate::states::{Drafted, Refused, Working};
use cells::cell::Record;
use cells::rules::JoinRule;

impl Working {
    // What became of a call on column k: the draft stands for it, or the sheet is handed back.
    pub(super) fn drafted(self, k: usize, came: Result<(), Refusal>) -> Result<Drafted, Refused>
        requires { IfOk came (λ u. k < self.shape.columns) }
        ensures { MatchResult came (λ u. answered_call result ≡ record { answer = granted; stage = drafted k; shape = self.shape }) (λ r. answered_call result ≡ record { answer = refused r; stage = working; shape = self.shape }) }
    {
        match came {
            Ok(()) => Ok(Drafted {
                shape: self.shape,
                column: k,
                spent: false,
            }),
            Err(refusal) => Err(Refused {
                refusal,
                sheet: self,
            }),
        }
    }

    fn write_joined<R: JoinRule>(
        &self,
        k: usize,
        x: usize,
        rule: &R,
        cells: &[Record],
        draft: &mut [Record],
    )
        requires lengths { has_both self.now.shape cells.now draft.old ≡ true }
        requires named { (k < self.now.shape.columns) × (x < self.now.shape.columns) }
        ensures { draft.new ≡ written_rows self.now.shape.rows (new_column self.now.shape (join k x (R.JoinRule.rule rule.now)) (cells_in self.now.shape cells.now)) }
    {
        let joined = Joined {
            rule,
            column: self.shape.column(cells, k),
            other: self.shape.column(cells, x),
        };
        write_rows(&joined, draft);
    }

    #[tactic(auto, using(crate::proofs::Exits::answer_opened))]
    fn join_rows<R: JoinRule>(
        &self,
        k: usize,
        x: usize,
        rule: &R,
        cells: &[Record],
        draft: &mut [Record],
    ) -> Result<(), Refusal>
        ensures { Drafts self.now.shape (join k x (R.JoinRule.rule rule.now)) cells.now draft.old result draft.new }
    {
        self.check_columns(CallName::Join, k, x, cells, draft)?;
        self.write_joined(k, x, rule, cells, draft);
        Ok(())
    }

    #[tactic(auto, using(crate::proofs::Exits::answer_opened))]
    fn copy_rows(
        &self,
        k: usize,
        x: usize,
        cells: &[Record],
        draft: &mut [Record],
    ) -> Result<(), Refusal>
        ensures { Drafts self.now.shape (copy k x) cells.now draft.old result draft.new }
    {
        self.check_columns(CallName::Copy, k, x, cells, draft)?;
        write_column(self.shape.column(cells, x), draft);
        Ok(())
    }

    #[tactic(auto, using(crate::proofs::Exits::answer_opened))]
    fn permute_rows(
        &self,
        k: usize,
        order: &[usize],
        cells: &[Record],
        draft: &mut [Record],
    ) -> Result<(), Refusal>
        ensures { Drafts self.now.shape (permute k order.now) cells.now draft.old result draft.new }
    {
        let call = CallName::Permute;
        self.check_lengths(call, k, cells, draft)?;
        self.check_column(call, k)?;
        if !is_permutation(self.shape.rows, order) {
            return Err(Refusal::NoPermutation { call, column: k });
        }
        let permuted = Permuted {
            column: self.shape.column(cells, k),
            order,
        };
        write_rows(&permuted, draft);
        Ok(())
    }

    // Each cell of column k becomes the join of itself with the one of column x.
    pub fn join<R: JoinRule>(
        self,
        k: usize,
        x: usize,
        rule: &R,
        cells: &[Record],
        draft: &mut [Record],
    ) -> Result<Drafted, Refused>
        ensures { Calls self.shape (join k x (R.JoinRule.rule rule.now)) cells.now draft.old result draft.new }
    {
        let came = self.join_rows(k, x, rule, cells, draft);
        self.drafted(k, came)
    }

    // Cell i of column k becomes its old cell order[i].
    pub fn permute(
        self,
        k: usize,
        order: &[usize],
        cells: &[Record],
        draft: &mut [Record],
    ) -> Result<Drafted, Refused>
        ensures { Calls self.shape (permute k order.now) cells.now draft.old result draft.new }
    {
        let came = self.permute_rows(k, order, cells, draft);
        self.drafted(k, came)
    }

    // Each cell of column k becomes the one of column x.
    pub fn copy(
        self,
        k: usize,
        x: usize,
        cells: &[Record],
        draft: &mut [Record],
    ) -> Result<Drafted, Refused>
        ensures { Calls self.shape (copy k x) cells.now draft.old result draft.new }
    {
        let came = self.copy_rows(k, x, cells, draft);
        self.drafted(k, came)
    }
}
