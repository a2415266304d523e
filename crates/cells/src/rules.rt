// Joining rules: two cells joined into one, by their intersection or by the least cell that holds both.
ghost use Rattle.std.specs.Prelude.{◌≡◌};
ghost use Rattle.cells.specs.Cells.{cell_value};
ghost use Rattle.cells.specs.Rules.{Rule};
ghost use Rattle.cells.specs.JoinLaws.{meet, hull};

use crate::cell::{Cell, Interval};

pub trait JoinRule {
    // The rule that `join` works by. Its laws are a part of it, so there is no impl that breaks one.
    ghost rule: { Self → Rule };

    // The joined cell.
    fn join(&self, a: Cell, b: Cell) -> Cell
        ensures { cell_value result ≡ Rule.joined (rule self.now) (cell_value a) (cell_value b) };
}

// The intersection.
#[derive(Clone, Copy)]
pub struct Meet;

// The least cell that holds both.
#[derive(Clone, Copy)]
pub struct Hull;

impl JoinRule for Meet {
    ghost rule = { λ _. meet };

    fn join(&self, a: Cell, b: Cell) -> Cell {
        let (x, y) = (a?, b?);
        let lower = x.lower.max(y.lower);
        let upper = x.upper.min(y.upper);
        if upper < lower {
            return None;
        }
        Some(Interval { lower, upper })
    }
}

impl JoinRule for Hull {
    ghost rule = { λ _. hull };

    fn join(&self, a: Cell, b: Cell) -> Cell {
        match (a, b) {
            (Some(x), Some(y)) => Some(Interval {
                lower: x.lower.min(y.lower),
                upper: x.upper.max(y.upper),
            }),
            (None, only) | (only, None) => only,
        }
    }
}
