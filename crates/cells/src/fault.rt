// The cell's fault: the rounding's fault, carried whole, with the row of the cell.
ghost use Rattle.std.specs.Prelude.{◌≡◌};

use rounding::fault::RoundingFault;

#[derive(Clone, Copy)]
pub struct CellFault {
    pub row: usize,
    pub rounding: RoundingFault,
}

// `?` alone cannot add a row, so `map_err` puts it beside the fault first.
impl From<(usize, RoundingFault)> for CellFault {
    ghost from_gives = { λ a r. r ≡ record { row = a.0; rounding = a.1 } };

    fn from((row, rounding): (usize, RoundingFault)) -> CellFault {
        CellFault { row, rounding }
    }
}
