// The three states of a sheet. They hold plain numbers: the memory comes with each call. Nothing but the calls of this crate makes
// one, and each call that ends a state takes it by value, so that an older state cannot be used again.
ghost use Rattle.std.specs.Prelude.{◌≡◌, ◌<◌, true};
ghost use Rattle.sheet.specs.Shapes.{Legal};

use crate::questions::Questions;
use crate::refusal::Refusal;
use crate::shape::Shape;

pub mod calling;
mod checking;
pub mod closing;
pub mod formula_calls;
pub mod opening;

// Opened, its cells empty but for those that were set since.
#[derive(Drop)]
pub struct Filling {
    shape: Shape,
    ghost legal: { Legal shape },
}

// Begun, with no draft standing.
#[derive(Drop)]
pub struct Working {
    shape: Shape,
    ghost legal: { Legal shape },
}

// With a draft for a column. It cannot be let go: only `post` and `withdraw` spend it, and the prover refuses to drop one that is not
// spent.
pub struct Drafted {
    shape: Shape,
    column: usize,
    spent: bool,
    ghost legal: { Legal shape },
    ghost aims: { column < shape.columns },
}

impl Filling {
    pub fn shape(&self) -> Shape
        ensures { result ≡ self.now.shape }
    {
        self.shape
    }
}

impl Working {
    pub fn shape(&self) -> Shape
        ensures { result ≡ self.now.shape }
    {
        self.shape
    }

    pub fn ask(&self) -> Questions
        ensures { result.shape ≡ self.now.shape }
    {
        Questions { shape: self.shape }
    }
}

impl Drafted {
    pub fn shape(&self) -> Shape
        ensures { result ≡ self.now.shape }
    {
        self.shape
    }

    // The column that the draft stands for.
    pub fn column(&self) -> usize
        ensures { result ≡ self.now.column }
    {
        self.column
    }

    pub fn ask(&self) -> Questions
        ensures { result.shape ≡ self.now.shape }
    {
        Questions { shape: self.shape }
    }
}

impl Drop for Drafted {
    fn drop(self)
        requires { self.spent ≡ true }
    {
        let Drafted {
            shape: _,
            column: _,
            spent: _,
        } = self;
    }
}

// A begin that was refused, with the sheet as it was.
#[derive(Drop)]
pub struct NotBegun {
    pub refusal: Refusal,
    pub sheet: Filling,
}

// A call that was refused, with the sheet as it was.
#[derive(Drop)]
pub struct Refused {
    pub refusal: Refusal,
    pub sheet: Working,
}

// A post or a withdraw that was refused, with the sheet as it was: its draft still stands.
pub struct StillDrafted {
    pub refusal: Refusal,
    pub sheet: Drafted,
}

// Where the sheet is given up with the call, `?` hands on the refusal alone. A drafted sheet cannot be given up.
impl From<NotBegun> for Refusal {
    ghost from_gives = { λ e r. r ≡ e.refusal };

    fn from(refused: NotBegun) -> Refusal {
        refused.refusal
    }
}

impl From<Refused> for Refusal {
    ghost from_gives = { λ e r. r ≡ e.refusal };

    fn from(refused: Refused) -> Refusal {
        refused.refusal
    }
}
