// Whole numbers that carry their ranges: what is divided, and by what. Each has a maker of its own, as have those of `cells`: no
// two ranges have the same shape, and one maker for all would take the test from its caller.
ghost use Rattle.std.specs.Prelude.{◌≡◌, ◌^◌, ◌<◌, ◌≤◌, pos, MatchOption, ◌≢◌, unsigned_abs};

// An unrounded sum: one signed 64-bit number below 2^62 in size.
#[derive(Clone, Copy)]
pub struct Unrounded {
    pub value: i64,
    ghost small: { unsigned_abs value < 2 ^ 62 },
}

// What a sum is divided by: not 0, and at most 10^10 in size.
#[derive(Clone, Copy)]
pub struct Divisor {
    pub value: i64,
    ghost nonzero: { value ≢ pos 0 },
    ghost size: { unsigned_abs value ≤ 10000000000 },
}

// The least and the greatest value of an unrounded sum, two numbers with a size each, since they are divided apart.
#[derive(Clone, Copy)]
pub struct Sums {
    pub least: Unrounded,
    pub greatest: Unrounded,
}

impl Unrounded {
    // None for a number of 2^62 or more in size.
    pub fn new(value: i64) -> Option<Unrounded>
        ensures { MatchOption result (2 ^ 62 ≤ unsigned_abs value) (λ u. (unsigned_abs value < 2 ^ 62) × (u.value ≡ value)) }
    {
        if value <= -4_611_686_018_427_387_904 || value >= 4_611_686_018_427_387_904 {
            return None;
        }
        Some(Unrounded { value })
    }
}

impl Divisor {
    // None for 0, and for a number beyond 10^10 in size.
    pub fn new(value: i64) -> Option<Divisor>
        ensures none { MatchOption result (unsigned_abs value ≤ 10000000000 → value ≡ pos 0) (λ d. (value ≢ pos 0) × (unsigned_abs value ≤ 10000000000) × (d.value ≡ value)) }
    {
        if value == 0 || value < -10_000_000_000 || value > 10_000_000_000 {
            return None;
        }
        Some(Divisor { value })
    }
}
