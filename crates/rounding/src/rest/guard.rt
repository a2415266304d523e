// The guard that turns the direction up for as long as it lives.
ghost use Rattle.std.specs.Prelude.{◌≡◌};
ghost use Rattle.rounding.specs.declared.direction.Direction.TheVariants.{Down, Up};

use crate::direction::Direction;

// Holds a direction that is turned up; its end, on whichever way out, puts the direction back to down.
pub struct Upward<'a>(&'a mut Direction);

impl<'a> Upward<'a> {
    // `same`: what the guard holds is the direction that was lent, so its end is seen by the lender.
    pub fn new(direction: &'a mut Direction) -> Upward<'a>
        ensures up { result.0.now ≡ Up }
        ensures same { result.0.ghost_name ≡ direction.entry.ghost_name }
    {
        *direction = Direction::Up;
        Upward(direction)
    }

    pub fn direction(&self) -> Direction
        ensures { result ≡ self.now.0.now }
    {
        *self.0
    }
}

impl Drop for Upward<'_> {
    fn drop(self)
        ensures { self.exit.0.now ≡ Down }
    {
        let Upward(direction) = self;
        *direction = Direction::Down;
    }
}
