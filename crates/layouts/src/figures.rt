// The figures of a storage, such as how many rows it has, are numbers as supplied: they may fit it or not.
ghost use Rattle.std.specs.Prelude.{◌≡◌, Bool, false, ◌*◌, nat_le};
ghost use Rattle.layouts.specs.Matrix.{nothing};
ghost use Rattle.layouts.specs.Refusals.{Checked};

use crate::layout::Layout;
use crate::refusal::LayoutRefusal;

// A storage with figures. Unfit ones mean the 0 by 0 matrix, so every answer of a storage asks `is_fit` first; that stands in each answer, since
// a helper would be no shorter than the question.
pub trait Figures: Layout {
    ghost fit: { Self → Bool };

    fn is_fit(&self) -> bool
        ensures { result ≡ fit self.now };

    // Refused where the figures are unfit.
    fn check(&self) -> Result<(), LayoutRefusal>
        ensures { Checked (fit self.now) result }
    {
        checked(self.is_fit())
    }

    // a law: unfit figures mean the 0 by 0 matrix
    ghost unfit: { (l : Self) → fit l ≡ false → Self.Layout.meaning l ≡ nothing };
}

pub(crate) fn checked(fit: bool) -> Result<(), LayoutRefusal>
    ensures { Checked fit result }
{
    if fit {
        Ok(())
    } else {
        Err(LayoutRefusal::UnfitFigures)
    }
}

// Whether a run of `len` cells has room for `columns` columns of `stride` places, however large the figures are.
pub(crate) fn has_room(stride: usize, columns: usize, len: usize) -> bool
    ensures { result ≡ nat_le (stride * columns) len }
{
    stride
        .checked_mul(columns)
        .is_some_and(|places| places <= len)
}
