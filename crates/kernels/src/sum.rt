// A sum as C reads it.
ghost use Rattle.std.specs.Prelude.{◌≡◌};
ghost use Rattle.cells.specs.Cells.{total_value};
ghost use Rattle.kernels.specs.Sums.{sum_record};

use cells::cell::Total;

// An enum does not cross to C, so a flag says whether the sum is filled. Where it is not, the bounds are 0.
#[repr(C)]
#[derive(Clone, Copy)]
pub struct SumRecord {
    pub filled: bool,
    pub least: i64,
    pub greatest: i64,
}

impl From<Total> for SumRecord {
    ghost from_gives = { λ total r. r ≡ sum_record (total_value total) };

    fn from(total: Total) -> SumRecord {
        match total {
            None => SumRecord {
                filled: false,
                least: 0,
                greatest: 0,
            },
            Some(t) => SumRecord {
                filled: true,
                least: t.least,
                greatest: t.greatest,
            },
        }
    }
}
