// The bar of a pair: a scale of 0 to 400 kPa in 40 characters of 10 kPa each.
ghost use Rattle.std.specs.Prelude.{◌≡◌, IfOk, string_bytes};
ghost use Rattle.account.specs.Bars.{place, at_dip, mark_at, sign, bar_text};

use cells::cell::Interval;
use std::alloc::{AllocError, Global};

const PLACES: u32 = 40;

const STEPS_TO_A_PLACE: u32 = 1000;

// What a character of the bar shows.
#[derive(Clone, Copy)]
pub enum Mark {
    Nothing,
    Pair,
    Dip,
    Both,
}

// The character that a number of steps falls in; what leaves the scale falls in the character at its edge.
fn place_of(steps: i32) -> u32
    ensures { result ≡ place steps }
{
    (u32::try_from(steps).unwrap_or(0) / STEPS_TO_A_PLACE).min(PLACES - 1)
}

fn is_at(dip: Option<i32>, k: u32) -> bool
    ensures { result ≡ at_dip dip k }
{
    dip.is_some_and(|steps| place_of(steps) == k)
}

fn mark_in(pair: Interval, dip: Option<i32>, k: u32) -> Mark
    ensures { result ≡ mark_at pair.lower pair.upper dip k }
{
    let in_pair = place_of(pair.lower) <= k && k <= place_of(pair.upper);
    match (in_pair, is_at(dip, k)) {
        (true, true) => Mark::Both,
        (true, false) => Mark::Pair,
        (false, true) => Mark::Dip,
        (false, false) => Mark::Nothing,
    }
}

impl From<Mark> for char {
    ghost from_gives = { λ m r. r ≡ sign m };

    fn from(mark: Mark) -> char {
        match mark {
            Mark::Both => '@',
            Mark::Pair => '=',
            Mark::Dip => 'o',
            Mark::Nothing => '.',
        }
    }
}

pub fn text(heap: Global, pair: Interval, dip: Option<i32>) -> Result<String, AllocError>
    ensures { IfOk result (λ s. string_bytes s ≡ bar_text pair.lower pair.upper dip) }
{
    (0..PLACES)
        .map(|k| char::from(mark_in(pair, dip, k)))
        .collect(heap)
}
