// The units of the station's records.
ghost use Rattle.std.specs.Prelude.{◌≡◌, pos};
ghost use Rattle.cells.specs.Cells.{cell_value};
ghost use Rattle.account.specs.Outcomes.{unity};

use cells::cell::{Cell, Scale};

// The number of steps to one mA, to one kPa per mA and to one kPa.
pub const UNIT: i32 = 100;

pub fn scale() -> Scale
    ensures { result.steps ≡ pos 100 }
{
    Scale { steps: UNIT as i64 }
}

// Exactly one.
pub fn one() -> Cell
    ensures { cell_value result ≡ unity }
{
    scale().one()
}
