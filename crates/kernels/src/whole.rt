// A whole call of a sheet, made as often as C asks: each round withdraws its draft, and the last one posts it.
ghost use Rattle.std.specs.Prelude.{◌≡◌, true, MatchResult};
ghost use Rattle.sheet.specs.Answers.{open_answer, call_answer, cells_opened, draft_opened};
ghost use Rattle.sheet.specs.Calls.{Call};
ghost use Rattle.sheet.specs.Checks.{granted, refused};
ghost use Rattle.sheet.specs.Memory.{has_cells, blanks};
ghost use Rattle.sheet.specs.Outcomes.{Calls};
ghost use Rattle.kernels.specs.Whole.{shape_of, answer_record, cells_posted, Works};

use crate::answer::AnswerRecord;
use crate::asked::Asked;
use cells::cell::Record;
use sheet::refusal::Refusal;
use sheet::shape::Shape;
use sheet::states::{Drafted, Filling, Refused, Working};

// A call with its operands.
pub(crate) trait SheetCall {
    ghost call: { Self → Call };

    fn draft(
        &self,
        sheet: Working,
        cells: &[Record],
        draft: &mut [Record],
    ) -> Result<Drafted, Refused>
        ensures { Calls sheet.shape (call self.now) cells.now draft.old result draft.new };
}

// The call, and its draft withdrawn: nothing is left of it.
fn withdrawn<C: SheetCall>(
    call: &C,
    sheet: Working,
    cells: &[Record],
    draft: &mut [Record],
) -> Working
    requires { draft.old ≡ blanks sheet.shape.rows }
    ensures sheet { result.shape ≡ sheet.shape }
    ensures draft { draft.new ≡ draft.old }
{
    let drafted = match call.draft(sheet, cells, draft) {
        Ok(drafted) => drafted,
        Err(refused) => return refused.sheet,
    };
    match drafted.withdraw(cells, draft) {
        Ok(sheet) => sheet,
        Err(_) => unreachable!(),
    }
}

// The call, and its draft posted.
fn posted<C: SheetCall>(
    call: &C,
    sheet: Working,
    cells: &mut [Record],
    draft: &mut [Record],
) -> AnswerRecord
    requires { draft.old ≡ blanks sheet.shape.rows }
    ensures answers { result ≡ answer_record (call_answer sheet.shape (C.SheetCall.call call.now) cells.old draft.old) }
    ensures cells { cells.new ≡ cells_posted sheet.shape (C.SheetCall.call call.now) cells.old (call_answer sheet.shape (C.SheetCall.call call.now) cells.old draft.old) }
    ensures draft { draft.new ≡ draft.old }
{
    let drafted = match call.draft(sheet, cells, draft) {
        Ok(drafted) => drafted,
        Err(refused) => return AnswerRecord::from(refused.refusal),
    };
    match drafted.post(cells, draft) {
        Ok(_) => AnswerRecord::granted(),
        Err(_) => unreachable!(),
    }
}

fn begun(sheet: Filling, own: &[Record]) -> Working
    requires { has_cells sheet.shape own.now ≡ true }
    ensures { result.shape ≡ sheet.shape }
{
    match sheet.begin(own) {
        Ok(sheet) => sheet,
        Err(_) => unreachable!(),
    }
}

// A sheet that works, opened over cells of its own, since the open empties them: its calls take any cells of the right length.
#[tactic(auto, using(crate::proofs::Opens::open_granted, crate::proofs::Opens::open_shape, crate::proofs::Opens::open_refused))]
fn opened(shape: Shape, own: &mut [Record], draft: &mut [Record]) -> Result<Working, Refusal>
    ensures answers { MatchResult result (λ w. (open_answer shape own.old draft.old ≡ granted) × (w.shape ≡ shape)) (λ r. open_answer shape own.old draft.old ≡ refused r) }
    ensures own { own.new ≡ cells_opened shape own.old (open_answer shape own.old draft.old) }
    ensures draft { draft.new ≡ draft_opened shape draft.old (open_answer shape own.old draft.old) }
{
    match Filling::open(shape.scale, shape.rows, shape.columns, own, draft) {
        Ok(sheet) => Ok(begun(sheet, own)),
        Err(refusal) => Err(refusal),
    }
}

// Rounds of the call, of which nothing is left.
fn rounds<C: SheetCall>(
    call: &C,
    sheet: Working,
    count: usize,
    cells: &[Record],
    draft: &mut [Record],
) -> Working
    requires { draft.old ≡ blanks sheet.shape.rows }
    ensures sheet { result.shape ≡ sheet.shape }
    ensures draft { draft.new ≡ draft.old }
{
    let mut sheet = sheet;
    for _ in 0..count {
        sheet = withdrawn(call, sheet, cells, draft);
    }
    sheet
}

// A number of rounds, and then the call with its draft posted.
pub(crate) fn worked<C: SheetCall>(
    call: &C,
    asked: Asked,
    own: &mut [Record],
    cells: &mut [Record],
    draft: &mut [Record],
) -> AnswerRecord
    ensures { Works (shape_of asked) (C.SheetCall.call call.now) own.old cells.old draft.old result own.new cells.new draft.new }
{
    match opened(asked.shape(), own, draft) {
        Ok(sheet) => {
            let sheet = rounds(call, sheet, asked.rounds, cells, draft);
            posted(call, sheet, cells, draft)
        }
        Err(refusal) => AnswerRecord::from(refusal),
    }
}
