// Opening a sheet and filling it, cell after cell.
ghost use Rattle.sheet.specs.Outcomes.{Opens, Sets, Begins};
ghost use Rattle.sheet.specs.Promises.{Promises};

use crate::laws::promises_hold;
use crate::memory::clear;
use crate::refusal::{CallName, Refusal};
use crate::shape::Shape;
use crate::states::{Filling, NotBegun, Working};
use cells::cell::Record;
use rounding::rest::dividing::LIMIT;

impl Filling {
    // Empties all cells and the draft. The scale is the number of steps to one unit, from 1 to 100,000.
    pub fn open(
        scale: i64,
        rows: usize,
        columns: usize,
        cells: &mut [Record],
        draft: &mut [Record],
    ) -> Result<Filling, Refusal>
        ensures { Opens (record { scale = scale; rows = rows; columns = columns }) cells.old draft.old result cells.new draft.new }
    {
        if scale < 1 || scale > 100_000 {
            return Err(Refusal::ScaleOutside);
        }
        if rows < 1 || rows > 1024 || columns < 1 || columns > 64 || rows * columns > 4096 {
            return Err(Refusal::ShapeOutside);
        }
        let shape = Shape {
            scale,
            rows,
            columns,
        };
        if !shape.has_both(cells, draft) {
            return Err(Refusal::WrongLength {
                call: CallName::Open,
                column: 0,
            });
        }
        clear(cells);
        clear(draft);
        Ok(Filling { shape })
    }

    // Makes one cell [lower, upper], and changes no other.
    pub fn set(
        &self,
        column: usize,
        row: usize,
        lower: i64,
        upper: i64,
        cells: &mut [Record],
    ) -> Result<(), Refusal>
        ensures { Sets self.now.shape column row lower upper cells.old result cells.new }
    {
        let call = CallName::Set;
        let Shape { rows, columns, .. } = self.shape;
        if !self.shape.has_cells(cells) {
            return Err(Refusal::WrongLength { call, column });
        }
        if column >= columns {
            return Err(Refusal::NoSuchColumn { call, column });
        }
        if row >= rows {
            return Err(Refusal::NoSuchRow { call, column, row });
        }
        let limit = i64::from(LIMIT);
        if lower < -limit || upper > limit || lower > upper {
            return Err(Refusal::NoCell { column });
        }
        cells[column * rows + row] = Record {
            lower: lower as i32,
            upper: upper as i32,
        };
        Ok(())
    }

    // The filled sheet as a working one. Nothing is written. Every program makes this call, so it is where the promises stand: what every
    // run of the sheet keeps from here on, whatever is asked of it.
    pub fn begin(self, cells: &[Record]) -> Result<Working, NotBegun>
        ensures begins { Begins self.shape cells.now result }
        ensures promises { Promises }
    {
        promises_hold();
        if !self.shape.has_cells(cells) {
            return Err(NotBegun {
                refusal: Refusal::WrongLength {
                    call: CallName::Begin,
                    column: 0,
                },
                sheet: self,
            });
        }
        let Filling { shape } = self;
        Ok(Working { shape })
    }
}
