// The job of the dam: one sheet, with four columns for each junction box and a row for each tip of a box. What the station holds is set;
// then box after box is worked out: the calibration, the neighbours taken out, the dips compared, and the total. Each of these is a call
// that is posted. Where a call is refused nothing of it is posted, what rests on it is left out, and the sheet goes on with the columns of
// the next box. What the account says is read from the posted columns.
ghost use Rattle.std.specs.Prelude.{◌≡◌, ◌≢◌, ◌⊎◌, ℕ, ◌<◌, ◌≤◌, ◌+◌, ◌*◌, IfOk, IfErr, slice_index_or};
ghost use Rattle.std.specs.Result.{result_err};
ghost use Rattle.arithmetic.specs.Values.{empty};
ghost use Rattle.cells.specs.Cells.{cell_value, cell_at};
ghost use Rattle.cells.specs.Faults.{kept};
ghost use Rattle.cells.specs.Formulas.{sum_cell};
ghost use Rattle.cells.specs.Joins.{met};
ghost use Rattle.rounding.specs.declared.fault.Bound.{Bound};
ghost use Rattle.account.specs.declared.outcome.NoPair.TheVariants.{PastLimit};
ghost use Rattle.account.specs.Outcomes.{told, to_tell, within_limit};
ghost use Rattle.account.specs.Tallies.{granted_call, one_posted, no_calls};
ghost use Rattle.sheet.specs.Memory.{cells_in};
ghost use Rattle.station.specs.Boxes.{dam_shape, Filled, dip_at};
ghost use Rattle.station.specs.Counts.{set_call, box_sets, posted_call, call_then, no_others, sum_stop, box_calls, first_calls, of_boxes};
ghost use Rattle.station.specs.Pressures.{calibrated, pressure};
ghost use Rattle.station.specs.Stops.{first_past, stops_at_bound, solve_stop, box_stop, left_standing, stop_in, SheetGoesOn};
ghost use Rattle.station.specs.declared.line.Junction.{Junction};
ghost use Rattle.station.specs.declared.total.NoTotal.TheVariants.{TipWithoutPair};

use crate::line::{BOXES, Junction, STRIDE, TIPS_OF_A_BOX};
use crate::stop::{Stop, Stopped};
use crate::total::NoTotal;
use account::outcome::{NoPair, Outcome};
use account::standing::dip_cell;
use account::tally::Tally;
use account::units::UNIT;
use cells::cell::{Cell, EMPTY, Record};
use cells::reading::{cell_at, read};
use cells::rules::Meet;
use layouts::band::Band;
use layouts::packed::Packed;
use layouts::side::Side;
use sheet::refusal::Refusal;
use sheet::states::{Drafted, Filling, Refused, Working};

// The columns of a box, counted from its first. First the readings.
const READINGS: usize = 0;

// The offsets; then what each tip shows, once the readings are calibrated; then the pressures.
const PRESSURES: usize = 1;

// The dips, empty where none was taken; then what dips and pressures have in common.
const DIPS: usize = 2;

// The sum of the pressures, in the first row.
const TOTAL: usize = 3;

const COLUMNS_OF_A_BOX: usize = 4;

const COLUMNS: usize = BOXES * COLUMNS_OF_A_BOX;

const CELLS: usize = COLUMNS * TIPS_OF_A_BOX;

// Exactly one.
const ONE: Record = Record {
    lower: UNIT,
    upper: UNIT,
};

// The memory of the sheet, and the calls that it was asked for. Of the calls of the job three can be refused: a product and a sum for a
// bound past the limit, and a solve for that or for a factor that holds 0. No other is: this is proved at each `unreachable!`.
#[derive(Clone, Copy)]
pub struct Memory {
    cells: [Record; CELLS],
    draft: [Record; TIPS_OF_A_BOX],
    calls: Tally,
}

impl Memory {
    pub fn new() -> Memory
        ensures { result.calls ≡ no_calls }
    {
        Memory {
            cells: [EMPTY; CELLS],
            draft: [EMPTY; TIPS_OF_A_BOX],
            calls: Tally::new(),
        }
    }

    // The calls so far.
    pub fn calls(&self) -> Tally
        ensures { result ≡ self.now.calls }
    {
        self.calls
    }

    fn open(&mut self) -> Filling
        ensures sheet { result.shape ≡ dam_shape }
        ensures cells { (column row : ℕ) → column < COLUMNS → row < TIPS_OF_A_BOX → cells_in dam_shape self.new.cells column row ≡ empty }
        ensures calls { self.new.calls ≡ granted_call self.old.calls }
    {
        let answer = Filling::open(
            i64::from(UNIT),
            TIPS_OF_A_BOX,
            COLUMNS,
            &mut self.cells,
            &mut self.draft,
        );
        match self.calls.answered(answer) {
            Ok(sheet) => sheet,
            Err(_) => unreachable!(),
        }
    }

    // Sets a cell that is empty yet; for an empty one it stays as it is, and no call is made.
    fn set(&mut self, sheet: &Filling, column: usize, row: usize, cell: Cell)
        requires sheet { sheet.now.shape ≡ dam_shape }
        requires place { (column < COLUMNS) × (row < TIPS_OF_A_BOX) }
        requires unset { cells_in dam_shape self.old.cells column row ≡ empty }
        ensures there { cells_in dam_shape self.new.cells column row ≡ cell_value cell }
        ensures elsewhere { (j i : ℕ) → i < TIPS_OF_A_BOX → ((j ≡ column) × (i ≡ row) → ⊥) → cells_in dam_shape self.new.cells j i ≡ cells_in dam_shape self.old.cells j i }
        ensures calls { self.new.calls ≡ set_call (cell_value cell) self.old.calls }
    {
        let Some(pair) = cell else {
            return;
        };
        let (lower, upper) = (i64::from(pair.lower), i64::from(pair.upper));
        let answer = sheet.set(column, row, lower, upper, &mut self.cells);
        match self.calls.answered(answer) {
            Ok(()) => {}
            Err(_) => unreachable!(),
        }
    }

    fn begin(&mut self, sheet: Filling) -> Working
        requires sheet { sheet.shape ≡ dam_shape }
        ensures sheet { result.shape ≡ dam_shape }
        ensures cells { self.new.cells ≡ self.old.cells }
        ensures calls { self.new.calls ≡ granted_call self.old.calls }
    {
        let answer = sheet.begin(&self.cells);
        match self.calls.answered(answer) {
            Ok(sheet) => sheet,
            Err(_) => unreachable!(),
        }
    }

    fn post(&mut self, sheet: Drafted) -> Working
        requires sheet { sheet.shape ≡ dam_shape }
        ensures sheet { result.shape ≡ dam_shape }
        ensures there { (row : ℕ) → row < TIPS_OF_A_BOX → cells_in dam_shape self.new.cells sheet.column row ≡ cell_at self.old.draft row }
        ensures elsewhere { (j row : ℕ) → j ≢ sheet.column → row < TIPS_OF_A_BOX → cells_in dam_shape self.new.cells j row ≡ cells_in dam_shape self.old.cells j row }
        ensures calls { self.new.calls ≡ one_posted (granted_call self.old.calls) }
    {
        let answer = sheet.post(&mut self.cells, &mut self.draft);
        match self.calls.answered(answer) {
            Ok(sheet) => {
                self.calls.posted();
                sheet
            }
            Err(_) => unreachable!(),
        }
    }

    // Sets all that is held of a box, in the columns that begin with the first.
    #[tactic(auto, using(crate::proofs::Counts::no_tips))]
    fn fill_box(&mut self, sheet: &Filling, first: usize, junction: &Junction)
        requires sheet { sheet.now.shape ≡ dam_shape }
        requires place { first + COLUMNS_OF_A_BOX ≤ COLUMNS }
        requires unset { (j row : ℕ) → first ≤ j → j < COLUMNS → row < TIPS_OF_A_BOX → cells_in dam_shape self.old.cells j row ≡ empty }
        ensures filled { Filled self.new.cells first junction.now }
        ensures elsewhere { (j row : ℕ) → (j < first) ⊎ (first + COLUMNS_OF_A_BOX ≤ j) → row < TIPS_OF_A_BOX → cells_in dam_shape self.new.cells j row ≡ cells_in dam_shape self.old.cells j row }
        ensures calls { self.new.calls ≡ box_sets junction.now self.old.calls }
    {
        for row in 0..TIPS_OF_A_BOX {
            let reading = read(junction.readings[row]);
            let offset = read(junction.offsets[row]);
            let dip = dip_cell(junction.dips[row]);
            self.set(sheet, first + READINGS, row, reading);
            self.set(sheet, first + PRESSURES, row, offset);
            self.set(sheet, first + DIPS, row, dip);
        }
    }

    // Sets all that is held of the dam, box after box.
    #[tactic(auto, using(crate::proofs::Counts::no_boxes))]
    fn fill(&mut self, sheet: &Filling, dam: &[Junction; BOXES])
        requires sheet { sheet.now.shape ≡ dam_shape }
        requires unset { (j row : ℕ) → j < COLUMNS → row < TIPS_OF_A_BOX → cells_in dam_shape self.old.cells j row ≡ empty }
        ensures filled { (nth : ℕ) (past : Junction) → nth < BOXES → Filled self.new.cells (nth * COLUMNS_OF_A_BOX) (slice_index_or dam.now nth past) }
        ensures calls { self.new.calls ≡ of_boxes box_sets dam.now BOXES self.old.calls }
    {
        for (nth, junction) in dam.iter().enumerate() {
            self.fill_box(sheet, nth * COLUMNS_OF_A_BOX, junction);
        }
    }

    // The sheet of the dam, filled and begun.
    pub(crate) fn start(&mut self, dam: &[Junction; BOXES]) -> Working
        ensures sheet { result.shape ≡ dam_shape }
        ensures filled { (nth : ℕ) (past : Junction) → nth < BOXES → Filled self.new.cells (nth * COLUMNS_OF_A_BOX) (slice_index_or dam.now nth past) }
        ensures calls { self.new.calls ≡ first_calls dam.now self.old.calls }
    {
        let sheet = self.open();
        self.fill(&sheet, dam);
        self.begin(sheet)
    }

    // What each tip of a box shows: its offset and, over all readings of the box, each times what the calibration has for it.
    fn calibrate(
        &mut self,
        sheet: Working,
        first: usize,
        junction: &Junction,
    ) -> Result<Working, Stopped>
        requires sheet { sheet.shape ≡ dam_shape }
        requires place { first + COLUMNS_OF_A_BOX ≤ COLUMNS }
        requires filled { Filled self.old.cells first junction.now }
        ensures sheet { SheetGoesOn result }
        ensures came { stop_in result ≡ stops_at_bound (first_past (calibrated junction.now)) }
        ensures there { IfOk result (λ w. (row : ℕ) → row < TIPS_OF_A_BOX → cells_in dam_shape self.new.cells (first + PRESSURES) row ≡ calibrated junction.now row) }
        ensures unposted { IfErr result (λ e. self.new.cells ≡ self.old.cells) }
        ensures elsewhere { (j row : ℕ) → j ≢ first + PRESSURES → row < TIPS_OF_A_BOX → cells_in dam_shape self.new.cells j row ≡ cells_in dam_shape self.old.cells j row }
        ensures calls { self.new.calls ≡ call_then (stop_in result) no_others self.old.calls }
    {
        // that the bounds of a cell are in order is one of the laws of layouts; the calls do nothing when the program runs
        cells::laws::laws_stand();
        layouts::laws::laws_stand();
        let band = Band {
            run: &junction.calibration,
            rows: TIPS_OF_A_BOX,
            columns: TIPS_OF_A_BOX,
            below: 1,
            above: 1,
            stride: STRIDE,
        };
        let answer = sheet.product(
            first + PRESSURES,
            first + READINGS,
            &band,
            ONE,
            ONE,
            &self.cells,
            &mut self.draft,
        );
        match self.calls.answered(answer) {
            Ok(sheet) => Ok(self.post(sheet)),
            Err(Refused { refusal, sheet }) => {
                let Refusal::BeyondLimit(fault) = refusal else {
                    unreachable!()
                };
                let stop = Stop::BeyondLimit(fault.cell);
                Err(Stopped { stop, sheet })
            }
        }
    }

    // The pressure at each tip of a box: what it shows, without what its neighbours add to that, over the share that it shows of its own.
    fn take_out_neighbours(
        &mut self,
        sheet: Working,
        first: usize,
        junction: &Junction,
    ) -> Result<Working, Stopped>
        requires sheet { sheet.shape ≡ dam_shape }
        requires place { first + COLUMNS_OF_A_BOX ≤ COLUMNS }
        requires shown { (row : ℕ) → row < TIPS_OF_A_BOX → cells_in dam_shape self.old.cells (first + PRESSURES) row ≡ calibrated junction.now row }
        ensures sheet { SheetGoesOn result }
        ensures came { stop_in result ≡ solve_stop junction.now }
        ensures there { IfOk result (λ w. (row : ℕ) → row < TIPS_OF_A_BOX → cells_in dam_shape self.new.cells (first + PRESSURES) row ≡ pressure junction.now row) }
        ensures unposted { IfErr result (λ e. self.new.cells ≡ self.old.cells) }
        ensures elsewhere { (j row : ℕ) → j ≢ first + PRESSURES → row < TIPS_OF_A_BOX → cells_in dam_shape self.new.cells j row ≡ cells_in dam_shape self.old.cells j row }
        ensures calls { self.new.calls ≡ call_then (stop_in result) no_others self.old.calls }
    {
        // the column that solves the equations of the box is the only one, by the laws of the sheet; the calls do nothing when the
        // program runs
        cells::laws::laws_stand();
        layouts::laws::laws_stand();
        sheet::laws::calls_stand();
        let triangle = Packed {
            run: &junction.factors,
            side: Side::Lower,
            n: TIPS_OF_A_BOX,
        };
        let answer = sheet.solve(
            first + PRESSURES,
            &triangle,
            ONE,
            &self.cells,
            &mut self.draft,
        );
        match self.calls.answered(answer) {
            Ok(sheet) => Ok(self.post(sheet)),
            Err(Refused { refusal, sheet }) => {
                let stop = match refusal {
                    Refusal::DivisorHoldsZero { row, .. } => Stop::OverZero(row),
                    Refusal::BeyondLimit(fault) => Stop::BeyondLimit(fault.cell),
                    _ => unreachable!(),
                };
                Err(Stopped { stop, sheet })
            }
        }
    }

    // The pressures of a box.
    fn work_out(
        &mut self,
        sheet: Working,
        first: usize,
        junction: &Junction,
    ) -> Result<Working, Stopped>
        requires sheet { sheet.shape ≡ dam_shape }
        requires place { first + COLUMNS_OF_A_BOX ≤ COLUMNS }
        requires filled { Filled self.old.cells first junction.now }
        ensures sheet { SheetGoesOn result }
        ensures came { stop_in result ≡ box_stop junction.now }
        ensures there { IfOk result (λ w. (row : ℕ) → row < TIPS_OF_A_BOX → cells_in dam_shape self.new.cells (first + PRESSURES) row ≡ pressure junction.now row) }
        ensures left { IfErr result (λ e. (row : ℕ) → row < TIPS_OF_A_BOX → cells_in dam_shape self.new.cells (first + PRESSURES) row ≡ left_standing junction.now row) }
        ensures elsewhere { (j row : ℕ) → j ≢ first + PRESSURES → row < TIPS_OF_A_BOX → cells_in dam_shape self.new.cells j row ≡ cells_in dam_shape self.old.cells j row }
        ensures calls { self.new.calls ≡ call_then (stops_at_bound (first_past (calibrated junction.now))) (call_then (solve_stop junction.now) no_others) self.old.calls }
    {
        let sheet = self.calibrate(sheet, first, junction)?;
        self.take_out_neighbours(sheet, first, junction)
    }

    // The dips of a box become what they have in common with its pressures.
    #[tactic(auto, using(crate::proofs::Calls::meet_answer))]
    fn compare(&mut self, sheet: Working, first: usize) -> Working
        requires sheet { sheet.shape ≡ dam_shape }
        requires place { first + COLUMNS_OF_A_BOX ≤ COLUMNS }
        ensures sheet { result.shape ≡ dam_shape }
        ensures there { (row : ℕ) → row < TIPS_OF_A_BOX → cells_in dam_shape self.new.cells (first + DIPS) row ≡ met (cells_in dam_shape self.old.cells (first + DIPS) row) (cells_in dam_shape self.old.cells (first + PRESSURES) row) }
        ensures elsewhere { (j row : ℕ) → j ≢ first + DIPS → row < TIPS_OF_A_BOX → cells_in dam_shape self.new.cells j row ≡ cells_in dam_shape self.old.cells j row }
        ensures calls { self.new.calls ≡ posted_call self.old.calls }
    {
        let answer = sheet.join(
            first + DIPS,
            first + PRESSURES,
            &Meet,
            &self.cells,
            &mut self.draft,
        );
        match self.calls.answered(answer) {
            Ok(sheet) => self.post(sheet),
            Err(_) => unreachable!(),
        }
    }

    // The total of a box. Where a bound of it is past the limit, nothing of it is posted, and the sheet goes on without it.
    fn total(&mut self, sheet: Working, first: usize) -> (Working, Outcome<NoTotal>)
        requires sheet { sheet.shape ≡ dam_shape }
        requires place { first + COLUMNS_OF_A_BOX ≤ COLUMNS }
        ensures sheet { result.0.shape ≡ dam_shape }
        ensures total { told result.1 ≡ to_tell TipWithoutPair (within_limit (kept (sum_cell (cells_in dam_shape self.old.cells (first + PRESSURES)) TIPS_OF_A_BOX))) }
        ensures unposted { (bound : Bound) → result.1 ≡ Err (PastLimit bound) → self.new.cells ≡ self.old.cells }
        ensures elsewhere { (j row : ℕ) → j ≢ first + TOTAL → row < TIPS_OF_A_BOX → cells_in dam_shape self.new.cells j row ≡ cells_in dam_shape self.old.cells j row }
        ensures calls { self.new.calls ≡ call_then (sum_stop (cells_in dam_shape self.old.cells (first + PRESSURES))) no_others self.old.calls }
    {
        // that the bounds of a sum are in order is one of the laws of cells; the call does nothing when the program runs
        cells::laws::laws_stand();
        let pressures = first + PRESSURES;
        let answer = sheet.sum(first + TOTAL, 0, pressures, &self.cells, &mut self.draft);
        match self.calls.answered(answer) {
            Ok(sheet) => {
                let sheet = self.post(sheet);
                let total = self.cell(first + TOTAL, 0);
                (sheet, total.ok_or(NoPair::Lacking(NoTotal::TipWithoutPair)))
            }
            Err(Refused { refusal, sheet }) => {
                let Refusal::BeyondLimit(fault) = refusal else {
                    unreachable!()
                };
                (sheet, Err(NoPair::from(fault.cell)))
            }
        }
    }

    // The cell at a row of a column.
    fn cell(&self, column: usize, row: usize) -> Cell
        requires { (column < COLUMNS) × (row < TIPS_OF_A_BOX) }
        ensures { cell_value result ≡ cells_in dam_shape self.now.cells column row }
    {
        cell_at(&self.cells, column * TIPS_OF_A_BOX + row)
    }

    // The job of the box that is the nth of the dam: its total is answered, its pressures and where they agree with the dips stand in its
    // columns; or what stopped it.
    pub(crate) fn run(
        &mut self,
        sheet: Working,
        nth: usize,
        junction: &Junction,
    ) -> (Working, Result<Outcome<NoTotal>, Stop>)
        requires sheet { sheet.shape ≡ dam_shape }
        requires place { nth < BOXES }
        requires filled { Filled self.old.cells (nth * COLUMNS_OF_A_BOX) junction.now }
        ensures sheet { result.0.shape ≡ dam_shape }
        ensures came { result_err result.1 ≡ box_stop junction.now }
        ensures pressures { IfOk result.1 (λ t. (row : ℕ) → row < TIPS_OF_A_BOX → cells_in dam_shape self.new.cells (nth * COLUMNS_OF_A_BOX + PRESSURES) row ≡ pressure junction.now row) }
        ensures agreed { IfOk result.1 (λ t. (row : ℕ) → row < TIPS_OF_A_BOX → cells_in dam_shape self.new.cells (nth * COLUMNS_OF_A_BOX + DIPS) row ≡ met (dip_at junction.now.dips row) (pressure junction.now row)) }
        ensures total { IfOk result.1 (λ t. told t ≡ to_tell TipWithoutPair (within_limit (kept (sum_cell (pressure junction.now) TIPS_OF_A_BOX)))) }
        ensures left { IfErr result.1 (λ s. (row : ℕ) → row < TIPS_OF_A_BOX → (cells_in dam_shape self.new.cells (nth * COLUMNS_OF_A_BOX + PRESSURES) row ≡ left_standing junction.now row) × (cells_in dam_shape self.new.cells (nth * COLUMNS_OF_A_BOX + DIPS) row ≡ dip_at junction.now.dips row)) }
        ensures elsewhere { (j row : ℕ) → (j < nth * COLUMNS_OF_A_BOX) ⊎ (nth * COLUMNS_OF_A_BOX + COLUMNS_OF_A_BOX ≤ j) → row < TIPS_OF_A_BOX → cells_in dam_shape self.new.cells j row ≡ cells_in dam_shape self.old.cells j row }
        ensures calls { self.new.calls ≡ box_calls junction.now self.old.calls }
    {
        let first = nth * COLUMNS_OF_A_BOX;
        match self.work_out(sheet, first, junction) {
            Ok(sheet) => {
                let sheet = self.compare(sheet, first);
                let (sheet, total) = self.total(sheet, first);
                (sheet, Ok(total))
            }
            Err(Stopped { stop, sheet }) => (sheet, Err(stop)),
        }
    }

    // The pressure at the tip at a place of a box.
    pub(crate) fn pair(&self, nth: usize, place: usize) -> Cell
        requires { (nth < BOXES) × (place < TIPS_OF_A_BOX) }
        ensures { cell_value result ≡ cells_in dam_shape self.now.cells (nth * COLUMNS_OF_A_BOX + PRESSURES) place }
    {
        self.cell(nth * COLUMNS_OF_A_BOX + PRESSURES, place)
    }

    // What the pressure at a tip and its dip have in common.
    pub(crate) fn agreed(&self, nth: usize, place: usize) -> Cell
        requires { (nth < BOXES) × (place < TIPS_OF_A_BOX) }
        ensures { cell_value result ≡ cells_in dam_shape self.now.cells (nth * COLUMNS_OF_A_BOX + DIPS) place }
    {
        self.cell(nth * COLUMNS_OF_A_BOX + DIPS, place)
    }
}
