// The calls that the benchmark times, with their operands.
ghost use Rattle.layouts.specs.Matrix.{Sound};
ghost use Rattle.kernels.specs.Soundness.{sound_prop};
ghost use Rattle.kernels.specs.Whole.{shape_of, dot_of, product_of, solve_of, WorksOver};

use crate::answer::AnswerRecord;
use crate::asked::Asked;
use crate::whole::{SheetCall, worked};
use cells::cell::Record;
use layouts::layout::{Layout, Triangular};
use sheet::states::{Drafted, Refused, Working};

// A dot in one row, with a second column.
#[derive(Clone, Copy)]
pub(crate) struct Dot {
    pub(crate) asked: Asked,
    pub(crate) row: usize,
    pub(crate) other: usize,
}

impl SheetCall for Dot {
    ghost call = { λ c. dot_of c.asked c.row c.other };

    fn draft(
        &self,
        sheet: Working,
        cells: &[Record],
        draft: &mut [Record],
    ) -> Result<Drafted, Refused> {
        let Asked {
            target,
            operand,
            alpha,
            beta,
            ..
        } = self.asked;
        sheet.dot(
            target, self.row, operand, self.other, alpha, beta, cells, draft,
        )
    }
}

// A product over a layout.
#[derive(Drop)]
struct ProductOver<'a, L: Layout> {
    asked: Asked,
    layout: &'a L,
    ghost sound: { Sound (L.Layout.meaning layout.now) } by { sound_prop (L.Layout.meaning layout.now) },
}

impl<L: Layout> SheetCall for ProductOver<'_, L> {
    ghost call = { λ c. product_of c.asked (record { matrix = L.Layout.meaning c.layout.now; sound = c.sound }) };

    #[tactic(auto, using(crate::proofs::Meanings::any_product))]
    fn draft(
        &self,
        sheet: Working,
        cells: &[Record],
        draft: &mut [Record],
    ) -> Result<Drafted, Refused> {
        let Asked {
            target,
            operand,
            alpha,
            beta,
            ..
        } = self.asked;
        sheet.product(target, operand, self.layout, alpha, beta, cells, draft)
    }
}

// A solve over a triangular layout.
#[derive(Drop)]
struct SolveOver<'a, T: Triangular> {
    asked: Asked,
    layout: &'a T,
    ghost sound: { Sound (T.Layout.meaning layout.now) } by { sound_prop (T.Layout.meaning layout.now) },
}

impl<T: Triangular> SheetCall for SolveOver<'_, T> {
    ghost call = { λ c. solve_of c.asked (T.Triangular.half c.layout.now) (record { matrix = T.Layout.meaning c.layout.now; sound = c.sound }) };

    #[tactic(auto, using(crate::proofs::Meanings::any_solve))]
    fn draft(
        &self,
        sheet: Working,
        cells: &[Record],
        draft: &mut [Record],
    ) -> Result<Drafted, Refused> {
        let Asked { target, alpha, .. } = self.asked;
        sheet.solve(target, self.layout, alpha, cells, draft)
    }
}

pub(crate) fn product<L: Layout>(
    layout: &L,
    asked: Asked,
    own: &mut [Record],
    cells: &mut [Record],
    draft: &mut [Record],
) -> AnswerRecord
    ensures { WorksOver (shape_of asked) (L.Layout.meaning layout.now) (product_of asked) own.old cells.old draft.old result own.new cells.new draft.new }
{
    worked(&ProductOver { asked, layout }, asked, own, cells, draft)
}

pub(crate) fn solve<T: Triangular>(
    layout: &T,
    asked: Asked,
    own: &mut [Record],
    cells: &mut [Record],
    draft: &mut [Record],
) -> AnswerRecord
    ensures { WorksOver (shape_of asked) (T.Layout.meaning layout.now) (solve_of asked (T.Triangular.half layout.now)) own.old cells.old draft.old result own.new cells.new draft.new }
{
    worked(&SolveOver { asked, layout }, asked, own, cells, draft)
}
