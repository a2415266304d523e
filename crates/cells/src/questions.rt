// The questions about one cell, and about two.
ghost use Rattle.std.specs.Prelude.{◌≡◌};
ghost use Rattle.cells.specs.Cells.{cell_value};
ghost use Rattle.cells.specs.Questions.{width_of, middle_of, nested};

use crate::cell::Cell;

// Upper minus lower, in steps; none for the empty cell.
pub fn width(cell: Cell) -> Option<i32>
    ensures { result ≡ width_of (cell_value cell) }
{
    let i = cell?;
    Some(i.upper - i.lower)
}

// Half the sum of the bounds, rounded down also where it is negative; none for the empty cell.
pub fn middle(cell: Cell) -> Option<i32>
    ensures { result ≡ middle_of (cell_value cell) }
{
    let i = cell?;
    Some((i.lower + i.upper).div_euclid(2))
}

// Whether all of one cell is inside the other; the empty cell is inside every one.
pub fn inside(cell: Cell, other: Cell) -> bool
    ensures { result ≡ nested (cell_value cell) (cell_value other) }
{
    match (cell, other) {
        (None, _) => true,
        (Some(_), None) => false,
        (Some(inner), Some(outer)) => outer.lower <= inner.lower && inner.upper <= outer.upper,
    }
}
