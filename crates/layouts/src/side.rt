// The sides of a square matrix: the lower triangle stands on and below the diagonal, the upper on and above it.
ghost use Rattle.std.specs.Prelude.{◌≡◌};
ghost use Rattle.layouts.specs.Sides.{opposite};

#[derive(Clone, Copy)]
pub enum Side {
    Lower,
    Upper,
}

impl Side {
    // The side across the diagonal.
    pub fn opposite(self) -> Side
        ensures { result ≡ opposite self }
    {
        match self {
            Side::Lower => Side::Upper,
            Side::Upper => Side::Lower,
        }
    }
}
