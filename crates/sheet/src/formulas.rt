// What the calls work out of a column, row by row: each is a formula for `work`.
ghost use Rattle.std.specs.Prelude.{◌<◌, ◌≤◌, ◌==◌, cond, length, nat_lt};
ghost use Rattle.cells.specs.Cells.{cell_value, cell_at};
ghost use Rattle.cells.specs.Formulas.{dot_cell, sum_cell, blend_cell};
ghost use Rattle.layouts.specs.Rows.{product_cell};
ghost use Rattle.layouts.specs.declared.side.Side.TheVariants.{Lower};
ghost use Rattle.sheet.specs.NewColumns.{solution};
ghost use Rattle.sheet.specs.RowLaws.{one_inside, all_inside, every_inside, others_stay, rest_stays, none_stays};
ghost use Rattle.sheet.specs.declared.order.WorkingOrder.TheVariants.{One, All};

use crate::order::WorkingOrder;
use crate::working_out::RowFormula;
use cells::cell::{Cell, Factors, Record, Target, Terms};
use cells::fault::CellFault;
use cells::formulas::{blend, dot, sum};
use layouts::layout::{Layout, Triangular};
use layouts::product::product_cell;
use layouts::side::Side;
use layouts::solve::solve_cell;
use layouts::vector::Vector;
use rounding::rest::Rounding;

// Σ x_j in one row.
#[derive(Clone, Copy)]
pub(crate) struct Summed<'a, 'b> {
    pub(crate) column: &'a [Record],
    pub(crate) row: usize,
    pub(crate) xs: &'b [Record],
    pub(crate) terms: Terms,
    ghost in_column: { row < length column.now },
}

impl RowFormula for Summed<'_, '_> {
    ghost old = { λ f. f.column.now };

    ghost new = { λ f row. cond (row == f.row) (sum_cell (cell_at f.xs.now) f.terms.count) (cell_at f.column.now row) };

    ghost rows = { λ f. One f.row };

    fn column(&self) -> &[Record] {
        self.column
    }

    fn order(&self) -> WorkingOrder {
        WorkingOrder::One { row: self.row }
    }

    fn record(
        &self,
        _rounding: &mut Rounding,
        _draft: &[Record],
        row: usize,
    ) -> Result<Record, CellFault> {
        sum(self.xs, self.terms, row)
    }

    ghost inside = { λ f. one_inside (length f.column.now) f.row f.in_column };

    ghost stays = { λ f. others_stay (length f.column.now) f.row (λ _. sum_cell (cell_at f.xs.now) f.terms.count) (cell_at f.column.now) };
}

// beta·r + alpha·Σ x_j·y_j in one row.
#[derive(Clone, Copy)]
pub(crate) struct Dotted<'a, 'b, 'c> {
    pub(crate) factors: Factors,
    pub(crate) column: &'a [Record],
    pub(crate) row: usize,
    pub(crate) xs: &'b [Record],
    pub(crate) ys: &'c [Record],
    pub(crate) terms: Terms,
    ghost in_column: { row < length column.now },
}

impl RowFormula for Dotted<'_, '_, '_> {
    ghost old = { λ f. f.column.now };

    ghost new = { λ f row. cond (row == f.row) (dot_cell f.factors.scale.steps (cell_value f.factors.alpha) (cell_value f.factors.beta) (cell_at f.column.now row) (cell_at f.xs.now) (cell_at f.ys.now) f.terms.count) (cell_at f.column.now row) };

    ghost rows = { λ f. One f.row };

    fn column(&self) -> &[Record] {
        self.column
    }

    fn order(&self) -> WorkingOrder {
        WorkingOrder::One { row: self.row }
    }

    fn record(
        &self,
        rounding: &mut Rounding,
        _draft: &[Record],
        row: usize,
    ) -> Result<Record, CellFault> {
        let target = Target {
            column: self.column,
            row,
        };
        dot(rounding, self.factors, target, self.xs, self.ys, self.terms)
    }

    ghost inside = { λ f. one_inside (length f.column.now) f.row f.in_column };

    ghost stays = { λ f. others_stay (length f.column.now) f.row (λ row. dot_cell f.factors.scale.steps (cell_value f.factors.alpha) (cell_value f.factors.beta) (cell_at f.column.now row) (cell_at f.xs.now) (cell_at f.ys.now) f.terms.count) (cell_at f.column.now) };
}

// alpha·x_i + beta·r in each row.
#[derive(Clone, Copy)]
pub(crate) struct Blended<'a, 'b> {
    pub(crate) factors: Factors,
    pub(crate) column: &'a [Record],
    pub(crate) xs: &'b [Record],
}

impl RowFormula for Blended<'_, '_> {
    ghost old = { λ f. f.column.now };

    ghost new = { λ f row. blend_cell f.factors.scale.steps (cell_value f.factors.alpha) (cell_value f.factors.beta) (cell_at f.xs.now row) (cell_at f.column.now row) };

    ghost rows = { λ f. All Lower (length f.column.now) };

    fn column(&self) -> &[Record] {
        self.column
    }

    fn order(&self) -> WorkingOrder {
        WorkingOrder::All {
            side: Side::Lower,
            rows: self.column.len(),
        }
    }

    fn record(
        &self,
        rounding: &mut Rounding,
        _draft: &[Record],
        row: usize,
    ) -> Result<Record, CellFault> {
        let target = Target {
            column: self.column,
            row,
        };
        blend(rounding, self.factors, target, self.xs)
    }

    ghost inside = { λ f. every_inside (length f.column.now) };

    ghost stays = { λ f. none_stays (length f.column.now) (cell_at f.column.now) (λ row. blend_cell f.factors.scale.steps (cell_value f.factors.alpha) (cell_value f.factors.beta) (cell_at f.xs.now row) (cell_at f.column.now row)) };
}

// beta·r + alpha·Σ L_ij·x_j in each row of a layout.
#[derive(Drop)]
pub(crate) struct Multiplied<'a, 'b, 'c, L: Layout> {
    pub(crate) factors: Factors,
    pub(crate) layout: &'c L,
    pub(crate) column: &'a [Record],
    pub(crate) xs: Vector<'b>,
    ghost room: { (L.Layout.meaning layout.now).rows ≤ length column.now },
}

impl<L: Layout> RowFormula for Multiplied<'_, '_, '_, L> {
    ghost old = { λ f. f.column.now };

    ghost new = { λ f row. cond (nat_lt row (L.Layout.meaning f.layout.now).rows) (product_cell f.factors.scale.steps (L.Layout.meaning f.layout.now) (cell_value f.factors.alpha) (cell_value f.factors.beta) (cell_at f.column.now row) (cell_at f.xs.run.now) row) (cell_at f.column.now row) };

    ghost rows = { λ f. All Lower (L.Layout.meaning f.layout.now).rows };

    fn column(&self) -> &[Record] {
        self.column
    }

    fn order(&self) -> WorkingOrder {
        WorkingOrder::All {
            side: Side::Lower,
            rows: self.layout.rows(),
        }
    }

    fn record(
        &self,
        rounding: &mut Rounding,
        _draft: &[Record],
        row: usize,
    ) -> Result<Record, CellFault> {
        let target = Target {
            column: self.column,
            row,
        };
        product_cell(rounding, self.factors, self.layout, target, self.xs)
    }

    ghost inside = { λ f. all_inside (length f.column.now) (L.Layout.meaning f.layout.now).rows Lower f.room };

    ghost stays = { λ f. rest_stays (length f.column.now) (L.Layout.meaning f.layout.now).rows Lower (λ row. product_cell f.factors.scale.steps (L.Layout.meaning f.layout.now) (cell_value f.factors.alpha) (cell_value f.factors.beta) (cell_at f.column.now row) (cell_at f.xs.run.now) row) (cell_at f.column.now) };
}

// z_i = (alpha·x_i − Σ T_ij·z_j)/T_ii in each row of a triangle, over the rows solved before: the draft holds their z_j already.
#[derive(Drop)]
pub(crate) struct Solved<'a, 'b, T: Triangular> {
    pub(crate) layout: &'b T,
    pub(crate) alpha: Cell,
    pub(crate) column: &'a [Record],
    ghost room: { (T.Layout.meaning layout.now).rows ≤ length column.now },
}

impl<T: Triangular> RowFormula for Solved<'_, '_, T> {
    ghost old = { λ f. f.column.now };

    ghost new = { λ f row. cond (nat_lt row (T.Layout.meaning f.layout.now).rows) (solution (T.Triangular.half f.layout.now) (T.Layout.meaning f.layout.now) (cell_value f.alpha) (cell_at f.column.now) row) (cell_at f.column.now row) };

    ghost rows = { λ f. All (T.Triangular.half f.layout.now) (T.Layout.meaning f.layout.now).rows };

    fn column(&self) -> &[Record] {
        self.column
    }

    fn order(&self) -> WorkingOrder {
        WorkingOrder::All {
            side: self.layout.side(),
            rows: self.layout.rows(),
        }
    }

    fn record(
        &self,
        rounding: &mut Rounding,
        draft: &[Record],
        row: usize,
    ) -> Result<Record, CellFault> {
        // that a filled cell has filled operands is among the laws of layouts; the calls do nothing when the program runs
        cells::laws::laws_stand();
        layouts::laws::laws_stand();
        let target = Target { column: draft, row };
        solve_cell(rounding, self.layout, self.alpha, target)
    }

    ghost inside = { λ f. all_inside (length f.column.now) (T.Layout.meaning f.layout.now).rows (T.Triangular.half f.layout.now) f.room };

    ghost stays = { λ f. rest_stays (length f.column.now) (T.Layout.meaning f.layout.now).rows (T.Triangular.half f.layout.now) (solution (T.Triangular.half f.layout.now) (T.Layout.meaning f.layout.now) (cell_value f.alpha) (cell_at f.column.now)) (cell_at f.column.now) };
}
