// The calls of a working sheet that work cells out by a formula.
ghost use Rattle.std.specs.Prelude.{◌≡◌, ◌<◌, ◌≤◌, true, IfOk};
ghost use Rattle.cells.specs.Cells.{cell_value, read_as};
ghost use Rattle.layouts.specs.Matrix.{Sound};
ghost use Rattle.sheet.specs.Answers.{check_answer};
ghost use Rattle.sheet.specs.Calls.{sum, dot, blend, product, solve};
ghost use Rattle.sheet.specs.Memory.{has_both};
ghost use Rattle.sheet.specs.Outcomes.{answer_of, Calls, CallsOver, Drafts, DraftsOver};
ghost use Rattle.cells.specs.declared.cell.Record.{Record};

use crate::formulas::{Blended, Dotted, Multiplied, Solved, Summed};
use crate::refusal::{CallName, Refusal};
use crate::states::{Drafted, Refused, Working};
use crate::working_out::work;
use cells::cell::{Factors, Record, Scale, Terms};
use cells::reading::read;
use layouts::layout::{Layout, Triangular};
use layouts::vector::Vector;

impl Working {
    fn factors(&self, alpha: Record, beta: Record) -> Factors
        ensures scale { result.scale.steps ≡ self.now.shape.scale }
        ensures alpha { cell_value result.alpha ≡ read_as alpha }
        ensures beta { cell_value result.beta ≡ read_as beta }
    {
        Factors {
            scale: Scale {
                steps: self.shape.scale,
            },
            alpha: read(alpha),
            beta: read(beta),
        }
    }

    // The number of terms of a sum over all rows.
    fn all_rows(&self) -> Terms
        ensures { result.count ≡ self.now.shape.rows }
    {
        Terms {
            count: self.shape.rows,
        }
    }

    fn check_sum(
        &self,
        k: usize,
        i: usize,
        x: usize,
        cells: &[Record],
        draft: &[Record],
    ) -> Result<(), Refusal>
        ensures answer { answer_of result ≡ check_answer self.now.shape (sum k i x) cells.now draft.now }
        ensures passed { IfOk result (λ u. (has_both self.now.shape cells.now draft.now ≡ true) × (k < self.now.shape.columns) × (x < self.now.shape.columns) × (i < self.now.shape.rows)) }
    {
        let call = CallName::Sum;
        self.check_columns(call, k, x, cells, draft)?;
        self.check_row(call, k, i)
    }

    fn sum_rows(
        &self,
        k: usize,
        i: usize,
        x: usize,
        cells: &[Record],
        draft: &mut [Record],
    ) -> Result<(), Refusal>
        ensures { Drafts self.now.shape (sum k i x) cells.now draft.old result draft.new }
    {
        self.check_sum(k, i, x, cells, draft)?;
        let summed = Summed {
            column: self.shape.column(cells, k),
            row: i,
            xs: self.shape.column(cells, x),
            terms: self.all_rows(),
        };
        work(CallName::Sum, k, &summed, draft)
    }

    fn check_dot(
        &self,
        k: usize,
        i: usize,
        x: usize,
        y: usize,
        cells: &[Record],
        draft: &[Record],
    ) -> Result<(), Refusal>
        ensures answer { (alpha beta : Record) → answer_of result ≡ check_answer self.now.shape (dot k i x y alpha beta) cells.now draft.now }
        ensures passed { IfOk result (λ u. (has_both self.now.shape cells.now draft.now ≡ true) × (k < self.now.shape.columns) × (x < self.now.shape.columns) × (y < self.now.shape.columns) × (i < self.now.shape.rows)) }
    {
        let call = CallName::Dot;
        self.check_columns(call, k, x, cells, draft)?;
        self.check_column(call, y)?;
        self.check_row(call, k, i)
    }

    fn dot_rows(
        &self,
        k: usize,
        i: usize,
        x: usize,
        y: usize,
        alpha: Record,
        beta: Record,
        cells: &[Record],
        draft: &mut [Record],
    ) -> Result<(), Refusal>
        ensures { Drafts self.now.shape (dot k i x y alpha beta) cells.now draft.old result draft.new }
    {
        self.check_dot(k, i, x, y, cells, draft)?;
        let dotted = Dotted {
            factors: self.factors(alpha, beta),
            column: self.shape.column(cells, k),
            row: i,
            xs: self.shape.column(cells, x),
            ys: self.shape.column(cells, y),
            terms: self.all_rows(),
        };
        work(CallName::Dot, k, &dotted, draft)
    }

    fn blend_rows(
        &self,
        k: usize,
        x: usize,
        alpha: Record,
        beta: Record,
        cells: &[Record],
        draft: &mut [Record],
    ) -> Result<(), Refusal>
        ensures { Drafts self.now.shape (blend k x alpha beta) cells.now draft.old result draft.new }
    {
        self.check_columns(CallName::Blend, k, x, cells, draft)?;
        let blended = Blended {
            factors: self.factors(alpha, beta),
            column: self.shape.column(cells, k),
            xs: self.shape.column(cells, x),
        };
        work(CallName::Blend, k, &blended, draft)
    }

    fn check_product<L: Layout>(
        &self,
        k: usize,
        x: usize,
        layout: &L,
        cells: &[Record],
        draft: &[Record],
    ) -> Result<(), Refusal>
        ensures answer { (sound : Sound (L.Layout.meaning layout.now)) (alpha beta : Record) → answer_of result ≡ check_answer self.now.shape (product k x (record { matrix = L.Layout.meaning layout.now; sound = sound }) alpha beta) cells.now draft.now }
        ensures passed { IfOk result (λ u. (has_both self.now.shape cells.now draft.now ≡ true) × (k < self.now.shape.columns) × (x < self.now.shape.columns) × ((L.Layout.meaning layout.now).rows ≤ self.now.shape.rows)) }
    {
        let call = CallName::Product;
        self.check_columns(call, k, x, cells, draft)?;
        self.check_room(call, k, layout)
    }

    fn product_rows<L: Layout>(
        &self,
        k: usize,
        x: usize,
        layout: &L,
        alpha: Record,
        beta: Record,
        cells: &[Record],
        draft: &mut [Record],
    ) -> Result<(), Refusal>
        ensures { DraftsOver self.now.shape (L.Layout.meaning layout.now) (λ l. product k x l alpha beta) cells.now draft.old result draft.new }
    {
        self.check_product(k, x, layout, cells, draft)?;
        let multiplied = Multiplied {
            factors: self.factors(alpha, beta),
            layout,
            column: self.shape.column(cells, k),
            xs: Vector::of(self.shape.column(cells, x)),
        };
        work(CallName::Product, k, &multiplied, draft)
    }

    fn check_solve<T: Triangular>(
        &self,
        k: usize,
        layout: &T,
        cells: &[Record],
        draft: &[Record],
    ) -> Result<(), Refusal>
        ensures answer { (sound : Sound (T.Layout.meaning layout.now)) (alpha : Record) → answer_of result ≡ check_answer self.now.shape (solve k (T.Triangular.half layout.now) (record { matrix = T.Layout.meaning layout.now; sound = sound }) alpha) cells.now draft.now }
        ensures passed { IfOk result (λ u. (has_both self.now.shape cells.now draft.now ≡ true) × (k < self.now.shape.columns) × ((T.Layout.meaning layout.now).rows ≤ self.now.shape.rows)) }
    {
        let call = CallName::Solve;
        self.check_lengths(call, k, cells, draft)?;
        self.check_column(call, k)?;
        self.check_room(call, k, layout)?;
        self.check_divisors(k, layout)
    }

    fn solve_rows<T: Triangular>(
        &self,
        k: usize,
        layout: &T,
        alpha: Record,
        cells: &[Record],
        draft: &mut [Record],
    ) -> Result<(), Refusal>
        ensures { DraftsOver self.now.shape (T.Layout.meaning layout.now) (λ t. solve k (T.Triangular.half layout.now) t alpha) cells.now draft.old result draft.new }
    {
        self.check_solve(k, layout, cells, draft)?;
        let solved = Solved {
            layout,
            alpha: read(alpha),
            column: self.shape.column(cells, k),
        };
        work(CallName::Solve, k, &solved, draft)
    }

    // Cell i of column k becomes the sum of column x over all rows; the others stay.
    pub fn sum(
        self,
        k: usize,
        i: usize,
        x: usize,
        cells: &[Record],
        draft: &mut [Record],
    ) -> Result<Drafted, Refused>
        ensures { Calls self.shape (sum k i x) cells.now draft.old result draft.new }
    {
        let came = self.sum_rows(k, i, x, cells, draft);
        self.drafted(k, came)
    }

    // Cell i of column k becomes beta·r + alpha·Σ x_j·y_j over all rows, r being the cell before; the others stay.
    pub fn dot(
        self,
        k: usize,
        i: usize,
        x: usize,
        y: usize,
        alpha: Record,
        beta: Record,
        cells: &[Record],
        draft: &mut [Record],
    ) -> Result<Drafted, Refused>
        ensures { Calls self.shape (dot k i x y alpha beta) cells.now draft.old result draft.new }
    {
        let came = self.dot_rows(k, i, x, y, alpha, beta, cells, draft);
        self.drafted(k, came)
    }

    // Each cell r of column k becomes alpha·x_i + beta·r.
    pub fn blend(
        self,
        k: usize,
        x: usize,
        alpha: Record,
        beta: Record,
        cells: &[Record],
        draft: &mut [Record],
    ) -> Result<Drafted, Refused>
        ensures { Calls self.shape (blend k x alpha beta) cells.now draft.old result draft.new }
    {
        let came = self.blend_rows(k, x, alpha, beta, cells, draft);
        self.drafted(k, came)
    }

    // For each row of the layout, cell i of column k becomes beta·r + alpha·Σ L_ij·x_j over all columns of the layout; the others stay.
    pub fn product<L: Layout>(
        self,
        k: usize,
        x: usize,
        layout: &L,
        alpha: Record,
        beta: Record,
        cells: &[Record],
        draft: &mut [Record],
    ) -> Result<Drafted, Refused>
        ensures { CallsOver self.shape (L.Layout.meaning layout.now) (λ l. product k x l alpha beta) cells.now draft.old result draft.new }
    {
        let came = self.product_rows(k, x, layout, alpha, beta, cells, draft);
        self.drafted(k, came)
    }

    // For each row of the layout, in working order, cell i of column k becomes z_i = (alpha·x_i − Σ T_ij·z_j)/T_ii over the rows solved
    // before, x being the column as it was; the others stay.
    pub fn solve<T: Triangular>(
        self,
        k: usize,
        layout: &T,
        alpha: Record,
        cells: &[Record],
        draft: &mut [Record],
    ) -> Result<Drafted, Refused>
        ensures { CallsOver self.shape (T.Layout.meaning layout.now) (λ t. solve k (T.Triangular.half layout.now) t alpha) cells.now draft.old result draft.new }
    {
        let came = self.solve_rows(k, layout, alpha, cells, draft);
        self.drafted(k, came)
    }
}
