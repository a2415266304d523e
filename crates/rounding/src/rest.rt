// The rounding as it is handed from call to call: its direction is down whenever no guard holds it.
ghost use Rattle.std.specs.Prelude.{◌≡◌};
ghost use Rattle.rounding.specs.declared.direction.Direction.TheVariants.{Down};

use crate::direction::Direction;

pub mod dividing;
pub mod guard;

#[derive(Drop)]
pub struct Rounding {
    pub direction: Direction,
    ghost rests: { direction ≡ Down },
}

impl Rounding {
    pub fn new() -> Rounding
        ensures { result.direction ≡ Down }
    {
        Rounding {
            direction: Direction::Down,
        }
    }
}
