// The sheet, in whatever state it is, and what each line makes of it.
ghost use Rattle.std.specs.Prelude.{◌≡◌, List, Some};
ghost use Rattle.cells.specs.declared.cell.Record.{Record};
ghost use Rattle.sheet.specs.declared.shape.Shape.{Shape};
ghost use Rattle.sheet.specs.Answers.{setting, beginning, posting, withdrawing, drafted};
ghost use Rattle.sheet.specs.Calls.{Call as SheetCall};
ghost use Rattle.sheet.specs.Outcomes.{answer_of, answered_close, Calls};
ghost use Rattle.replay.specs.Asks.{told, size_told, steps_told, size_at_told, whether_told, question_answer, asked_question, Asked, Called, NotCalled, CallAsked, LineCalled, AskedOf};
ghost use Rattle.replay.specs.Stages.{standing, Fits};
ghost use Rattle.replay.specs.declared.answer.Answer.TheVariants.{NotTaken};
ghost use Rattle.replay.specs.declared.stage.Stage.TheVariants.{Free as FreeSheet};

use crate::answer::Answer;
use crate::memory::Memory;
use crate::names::Names;
use cells::cell::Record;
use cells::rules::{Hull, Meet};
use script::line::{Ask, Bounds, Call, Question, Rule};
use sheet::questions::Questions;
use sheet::refusal::Refusal;
use sheet::states::{Drafted, Filling, NotBegun, Refused, StillDrafted, Working};
use std::alloc::Global;

pub enum Stage {
    Free(Free),
    Drafted(Drafted),
}

// With no draft standing, so that the sheet may be let go.
#[derive(Drop)]
pub enum Free {
    // no sheet was opened yet
    Closed,
    Filling(Filling),
    Working(Working),
}

// What a line leaves of the sheet, and its answer.
pub struct Left {
    pub stage: Stage,
    pub answer: Answer,
}

fn leaves(stage: Stage, answer: Answer) -> Left
    ensures { (result.stage ≡ stage) × (result.answer ≡ answer) }
{
    Left { stage, answer }
}

fn opened(
    free: Free,
    heap: Global,
    unit: i64,
    rows: usize,
    columns: usize,
    memory: &mut Memory,
) -> Left
    requires { Fits (FreeSheet free) memory.old.own.cells.items memory.old.own.draft.items }
    ensures { Fits result.stage memory.new.own.cells.items memory.new.own.draft.items }
{
    let Ok(mut runs) = memory.fresh(heap, rows.saturating_mul(columns), rows) else {
        return leaves(Stage::Free(free), Answer::NoMemory);
    };
    match Filling::open(unit, rows, columns, &mut runs.cells, &mut runs.draft) {
        Ok(sheet) => {
            memory.own = runs;
            leaves(Stage::Free(Free::Filling(sheet)), Answer::Granted)
        }
        Err(refusal) => leaves(Stage::Free(free), Answer::Refused(refusal)),
    }
}

// A sheet that is drafted takes no open: its draft has to be ended first.
pub fn open(
    stage: Stage,
    heap: Global,
    unit: i64,
    rows: usize,
    columns: usize,
    memory: &mut Memory,
) -> Left
    requires { Fits stage memory.old.own.cells.items memory.old.own.draft.items }
    ensures { Fits result.stage memory.new.own.cells.items memory.new.own.draft.items }
{
    match stage {
        Stage::Drafted(sheet) => leaves(Stage::Drafted(sheet), Answer::NotTaken),
        Stage::Free(free) => opened(free, heap, unit, rows, columns, memory),
    }
}

fn answered(came: Result<(), Refusal>) -> Answer
    ensures { result ≡ told (answer_of came) }
{
    match came {
        Ok(()) => Answer::Granted,
        Err(refusal) => Answer::Refused(refusal),
    }
}

fn set(stage: Stage, k: usize, i: usize, bounds: Bounds, cells: &mut [Record]) -> Left
    ensures { (draft : List Record) → Asked (standing stage) (setting k i bounds.lower bounds.upper) cells.old draft result cells.new draft }
{
    match stage {
        Stage::Free(Free::Filling(sheet)) => {
            let came = sheet.set(k, i, bounds.lower, bounds.upper, cells);
            leaves(Stage::Free(Free::Filling(sheet)), answered(came))
        }
        stage => leaves(stage, Answer::NotTaken),
    }
}

fn begin(stage: Stage, cells: &[Record]) -> Left
    ensures { (draft : List Record) → Asked (standing stage) beginning cells.now draft result cells.now draft }
{
    match stage {
        Stage::Free(Free::Filling(sheet)) => match sheet.begin(cells) {
            Ok(sheet) => leaves(Stage::Free(Free::Working(sheet)), Answer::Granted),
            Err(NotBegun { refusal, sheet }) => {
                leaves(Stage::Free(Free::Filling(sheet)), Answer::Refused(refusal))
            }
        },
        stage => leaves(stage, Answer::NotTaken),
    }
}

fn ended(came: Result<Working, StillDrafted>) -> Left
    ensures answer { result.answer ≡ told (answered_close came).answer }
    ensures stands { standing result.stage ≡ Some (record { stage = (answered_close came).stage; shape = (answered_close came).shape }) }
{
    match came {
        Ok(sheet) => leaves(Stage::Free(Free::Working(sheet)), Answer::Granted),
        Err(StillDrafted { refusal, sheet }) => {
            leaves(Stage::Drafted(sheet), Answer::Refused(refusal))
        }
    }
}

fn post(stage: Stage, cells: &mut [Record], draft: &mut [Record]) -> Left
    ensures { Asked (standing stage) posting cells.old draft.old result cells.new draft.new }
{
    match stage {
        Stage::Drafted(sheet) => ended(sheet.post(cells, draft)),
        stage => leaves(stage, Answer::NotTaken),
    }
}

fn withdraw(stage: Stage, cells: &[Record], draft: &mut [Record]) -> Left
    ensures { Asked (standing stage) withdrawing cells.now draft.old result cells.now draft.new }
{
    match stage {
        Stage::Drafted(sheet) => ended(sheet.withdraw(cells, draft)),
        stage => leaves(stage, Answer::NotTaken),
    }
}

fn called(came: Result<Drafted, Refused>) -> Left
    ensures { (s : Shape) (call : SheetCall) (cells draft drafted′ : List Record) → Calls s call cells draft came drafted′ → Called s call cells draft result drafted′ }
{
    match came {
        Ok(sheet) => leaves(Stage::Drafted(sheet), Answer::Granted),
        Err(Refused { refusal, sheet }) => leaves(
            Stage::Free(Free::Working(sheet)),
            Answer::Refused(refusal),
        ),
    }
}

fn not_taken(sheet: Working) -> Left
    ensures { (cells draft : List Record) → NotCalled NotTaken sheet.shape cells draft result draft }
{
    leaves(Stage::Free(Free::Working(sheet)), Answer::NotTaken)
}

fn call_working(
    sheet: Working,
    heap: Global,
    call: Call<'_>,
    names: &Names,
    cells: &[Record],
    draft: &mut [Record],
) -> Left
    ensures { LineCalled call.entry sheet.shape cells.now draft.old result draft.new }
{
    match call {
        Call::Dot {
            k,
            i,
            x,
            y,
            alpha,
            beta,
        } => called(sheet.dot(k, i, x, y, alpha, beta, cells, draft)),
        Call::Sum { k, i, x } => called(sheet.sum(k, i, x, cells, draft)),
        Call::Blend { k, x, alpha, beta } => called(sheet.blend(k, x, alpha, beta, cells, draft)),
        Call::Product {
            k,
            x,
            matrix,
            alpha,
            beta,
        } => match names.get(matrix) {
            None => not_taken(sheet),
            Some(bound) => called(sheet.product(k, x, &bound.stack(), alpha, beta, cells, draft)),
        },
        Call::Solve { k, matrix, alpha } => match names.get(matrix) {
            None => not_taken(sheet),
            Some(bound) => match bound.triangle() {
                None => not_taken(sheet),
                Some(triangle) => called(sheet.solve(k, &triangle, alpha, cells, draft)),
            },
        },
        Call::Join { k, x, rule } => called(match rule {
            Rule::Meet => sheet.join(k, x, &Meet, cells, draft),
            Rule::Hull => sheet.join(k, x, &Hull, cells, draft),
        }),
        Call::Copy { k, x } => called(sheet.copy(k, x, cells, draft)),
        Call::Permute { k, order } => match order.to_counts(heap) {
            Err(_) => leaves(Stage::Free(Free::Working(sheet)), Answer::NoMemory),
            Ok(order) => called(sheet.permute(k, &order, cells, draft)),
        },
    }
}

fn call(
    stage: Stage,
    heap: Global,
    call: Call<'_>,
    names: &Names,
    cells: &[Record],
    draft: &mut [Record],
) -> Left
    ensures { CallAsked (standing stage) call.entry cells.now draft.old result draft.new }
{
    match stage {
        Stage::Free(Free::Working(sheet)) => call_working(sheet, heap, call, names, cells, draft),
        stage => leaves(stage, Answer::NotTaken),
    }
}

fn size(came: Result<Option<u32>, Refusal>) -> Answer
    ensures { result ≡ size_told came }
{
    match came {
        Ok(None) => Answer::Nothing,
        Ok(Some(size)) => Answer::Size(size),
        Err(refusal) => Answer::Refused(refusal),
    }
}

fn steps(came: Result<Option<i32>, Refusal>) -> Answer
    ensures { result ≡ steps_told came }
{
    match came {
        Ok(None) => Answer::Nothing,
        Ok(Some(steps)) => Answer::Steps(steps),
        Err(refusal) => Answer::Refused(refusal),
    }
}

fn size_at(came: Result<Option<(u32, usize)>, Refusal>) -> Answer
    ensures { result ≡ size_at_told came }
{
    match came {
        Ok(None) => Answer::Nothing,
        Ok(Some((size, row))) => Answer::SizeAt(size, row),
        Err(refusal) => Answer::Refused(refusal),
    }
}

fn whether(came: Result<bool, Refusal>) -> Answer
    ensures { result ≡ whether_told came }
{
    match came {
        Ok(true) => Answer::Yes,
        Ok(false) => Answer::No,
        Err(refusal) => Answer::Refused(refusal),
    }
}

fn answer(sheet: Questions, question: Question, cells: &[Record]) -> Answer
    ensures { result ≡ question_answer question sheet.shape cells.now }
{
    match question {
        Question::OneNorm { k } => size(sheet.one_norm(k, cells)),
        Question::InfinityNorm { k } => size(sheet.infinity_norm(k, cells)),
        Question::Largest { k } => size_at(sheet.largest(k, cells)),
        Question::Smallest { k } => size_at(sheet.smallest(k, cells)),
        Question::Width { k, i } => steps(sheet.width(k, i, cells)),
        Question::Middle { k, i } => steps(sheet.middle(k, i, cells)),
        Question::Enclosed { k, x } => whether(sheet.enclosed(k, x, cells)),
    }
}

// Working and drafted sheets take questions.
fn question(stage: &Stage, question: Question, cells: &[Record]) -> Answer
    ensures { result ≡ asked_question (standing stage.now) question cells.now }
{
    match stage {
        Stage::Free(Free::Working(sheet)) => answer(sheet.ask(), question, cells),
        Stage::Drafted(sheet) => answer(sheet.ask(), question, cells),
        _ => Answer::NotTaken,
    }
}

fn ask_of(
    stage: Stage,
    heap: Global,
    ask: Ask<'_>,
    names: &Names,
    cells: &mut [Record],
    draft: &mut [Record],
) -> Left
    ensures { AskedOf ask.entry (standing stage) cells.old draft.old result cells.new draft.new }
{
    match ask {
        Ask::Set { k, i, bounds } => set(stage, k, i, bounds, cells),
        Ask::Begin => begin(stage, cells),
        Ask::Call(called) => call(stage, heap, called, names, cells, draft),
        Ask::Post => post(stage, cells, draft),
        Ask::Withdraw => withdraw(stage, cells, draft),
        Ask::Question(asked) => {
            let answer = question(&stage, asked, cells);
            leaves(stage, answer)
        }
    }
}

// Asked over the memory that the script tells.
pub fn ask(stage: Stage, heap: Global, ask: Ask<'_>, names: &Names, memory: &mut Memory) -> Left
    requires { Fits stage memory.old.own.cells.items memory.old.own.draft.items }
    ensures { Fits result.stage memory.new.own.cells.items memory.new.own.draft.items }
{
    let own = &mut memory.own;
    match &mut memory.told {
        None => ask_of(stage, heap, ask, names, &mut own.cells, &mut own.draft),
        Some(told) => match (
            told.cells.len() == own.cells.len(),
            told.draft.len() == own.draft.len(),
        ) {
            (true, true) => ask_of(stage, heap, ask, names, &mut own.cells, &mut own.draft),
            (true, false) => ask_of(stage, heap, ask, names, &mut own.cells, &mut told.draft),
            (false, true) => ask_of(stage, heap, ask, names, &mut told.cells, &mut own.draft),
            (false, false) => ask_of(stage, heap, ask, names, &mut told.cells, &mut told.draft),
        },
    }
}
