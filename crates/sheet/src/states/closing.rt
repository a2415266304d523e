// Ending a draft: posted to its column, or withdrawn.
ghost use Rattle.std.specs.Prelude.{◌≡◌, length};
ghost use Rattle.sheet.specs.Memory.{blanks};
ghost use Rattle.sheet.specs.Outcomes.{Posts, Withdraws, StillStands};
ghost use Rattle.sheet.specs.declared.refusal.Refusal.TheVariants.{WrongLength};

use crate::memory::clear;
use crate::refusal::{CallName, Refusal};
use crate::states::{Drafted, StillDrafted, Working};
use cells::cell::Record;

impl Drafted {
    fn refused(self, call: CallName) -> StillDrafted
        ensures { (result.refusal ≡ WrongLength call self.column) × (result.sheet ≡ self) }
    {
        StillDrafted {
            refusal: Refusal::WrongLength {
                call,
                column: self.column,
            },
            sheet: self,
        }
    }

    // Empties the draft and spends the state: it may be let go now.
    fn spend(mut self, draft: &mut [Record]) -> Working
        ensures shape { result.shape ≡ self.shape }
        ensures draft { draft.new ≡ blanks (length draft.old) }
    {
        clear(draft);
        self.spent = true;
        Working { shape: self.shape }
    }

    // Copies the draft to its column, and empties it.
    pub fn post(self, cells: &mut [Record], draft: &mut [Record]) -> Result<Working, StillDrafted>
        ensures posts { Posts self.shape self.column cells.old draft.old result cells.new draft.new }
        ensures standing { StillStands self.spent result }
    {
        if !self.shape.has_both(cells, draft) {
            return Err(self.refused(CallName::Post));
        }
        let rows = self.shape.rows;
        let from = self.column * rows;
        cells[from..from + rows].copy_from_slice(draft);
        Ok(self.spend(draft))
    }

    // Empties the draft, and leaves the columns as they are.
    pub fn withdraw(self, cells: &[Record], draft: &mut [Record]) -> Result<Working, StillDrafted>
        ensures withdraws { Withdraws self.shape self.column cells.now draft.old result draft.new }
        ensures standing { StillStands self.spent result }
    {
        if !self.shape.has_both(cells, draft) {
            return Err(self.refused(CallName::Withdraw));
        }
        Ok(self.spend(draft))
    }
}
