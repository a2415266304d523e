// Numbers, cells and names, each from one word.
ghost use Rattle.std.specs.Prelude.{ℕ, ℤ, ◌≡◌, ◌≢◌, ◌==◌, ◌<◌, ◌≤◌, ◌-◌, ◌^◌, IsTrue, IfSome, MatchOption, SomeIff, if◌then◌else◌, length, slice_index, min, pos};
ghost use Rattle.std.specs.Char.{is_ascii_digit};
ghost use Rattle.std.specs.Fmt.{decimal};
ghost use Rattle.std.specs.List.{list_all, position};
ghost use Rattle.std.specs.Option.{option_map};
ghost use Rattle.std.specs.Str.Parse.{digits_value};
ghost use Rattle.arithmetic.specs.Values.{Value};
ghost use Rattle.cells.specs.Cells.{read_as};
ghost use Rattle.script.specs.Numbers.{StandsFor, held, text, number, made, made_of, first_dot, pair_of, cell_of, is_digits, count_of, size_of, is_small_or_digit, is_name};

use cells::cell::{EMPTY, Record};
use rounding::rest::dividing::LIMIT;

fn all_digits(word: &[u8]) -> bool
    ensures { result ≡ list_all is_ascii_digit word.now }
{
    word.iter().all(u8::is_ascii_digit)
}

// Whether a word is digits: one, or several of which the first is not 0.
fn is_digits(word: &[u8]) -> bool
    ensures { result ≡ is_digits word.now }
{
    all_digits(word) && (word.len() == 1 || word.len() > 1 && word[0] > b'0')
}

// The number of digits, where it fits 64 bits.
fn value(digits: &[u8]) -> Option<usize>
    requires { IsTrue (list_all is_ascii_digit digits.now) }
    ensures { SomeIff result ((0 < length digits.now) × (digits_value 10 digits.now < 2 ^ 64)) (digits_value 10 digits.now) }
{
    str::from_utf8(digits).ok()?.parse().ok()
}

// None where the word is no number, or one with a hyphen or beyond 2^64 - 1.
pub fn count(word: &[u8]) -> Option<usize>
    ensures read { result ≡ count_of word.now }
    ensures written { MatchOption result ((n : ℕ) → n < 2 ^ 64 → word.now ≢ decimal n) (λ n. word.now ≡ decimal n) }
{
    if is_digits(word) { value(word) } else { None }
}

// The number of digits, held at the highest `i64`.
fn held(word: &[u8]) -> Option<i64>
    ensures { result ≡ (if is_digits word.now then Some (pos (min (digits_value 10 word.now) (2 ^ 63 - 1))) else None) }
{
    if !is_digits(word) {
        return None;
    }
    let number = match value(word) {
        Some(number) => i64::try_from(number).unwrap_or(i64::MAX),
        None => i64::MAX,
    };
    Some(number)
}

#[tactic(auto, using(crate::proofs::Held::held_below))]
fn signed(word: &[u8]) -> Option<i64>
    ensures { result ≡ size_of word.now }
{
    match word {
        [b'-', digits @ ..] => match held(digits)? {
            0 => None,
            number => Some(-number),
        },
        digits => held(digits),
    }
}

// A number of any size, held at the highest `i64` on either side of 0: that is far beyond all that a sheet takes, so what is held
// there is answered as the number itself would be.
pub fn size(word: &[u8]) -> Option<i64>
    ensures read { result ≡ size_of word.now }
    ensures written { MatchOption result ((z : ℤ) → word.now ≢ text z) (λ s. (z : ℤ) × (word.now ≡ text z) × (s ≡ held z)) }
{
    signed(word)
}

// The record of two numbers, empty where they make no cell.
fn record(lower: i64, upper: i64) -> Record
    ensures { read_as result ≡ made lower upper }
{
    let limit = i64::from(LIMIT);
    if lower < -limit || upper > limit || lower > upper {
        return EMPTY;
    }
    Record {
        lower: lower as i32,
        upper: upper as i32,
    }
}

#[tactic(auto, using(crate::proofs::Made::sizes))]
fn bounded(lower: &[u8], upper: &[u8]) -> Option<Record>
    ensures { option_map read_as result ≡ made_of (number lower.now) (number upper.now) }
{
    Some(record(size(lower)?, size(upper)?))
}

fn dot(word: &[u8]) -> Option<usize>
    ensures place { result ≡ position (λ b. b == 46) word.now }
    ensures within { IfSome result (λ at. at < length word.now) }
{
    word.iter().position(|b| *b == b'.')
}

fn first_dot(word: &[u8]) -> usize
    ensures place { result ≡ first_dot word.now }
    ensures within { result ≤ length word.now }
{
    dot(word).unwrap_or(word.len())
}

fn is_at(word: &[u8], place: usize, byte: u8) -> bool
    requires { 0 < byte }
    ensures { result ≡ (slice_index word.now place == byte) }
{
    place < word.len() && word[place] == byte
}

fn pair(word: &[u8]) -> Option<Record>
    ensures { option_map read_as result ≡ pair_of word.now }
{
    let at = first_dot(word);
    if is_at(word, at + 1, b'.') {
        bounded(&word[..at], &word[at + 2..])
    } else {
        None
    }
}

// Two bounds with two dots between; or a hyphen, the empty cell.
pub fn cell(word: &[u8]) -> Option<Record>
    ensures read { option_map read_as result ≡ cell_of word.now }
    ensures written { MatchOption result ((v : Value) → ¬ (StandsFor word.now v)) (λ r. StandsFor word.now (read_as r)) }
{
    if word.len() == 1 && is_at(word, 0, b'-') {
        Some(EMPTY)
    } else {
        pair(word)
    }
}

fn are_small_or_digits(word: &[u8]) -> bool
    ensures { result ≡ list_all is_small_or_digit word.now }
{
    word.iter()
        .all(|b| b.is_ascii_lowercase() || b.is_ascii_digit())
}

pub fn is_name(word: &[u8]) -> bool
    ensures { result ≡ is_name word.now }
{
    match word {
        [first, rest @ ..] => first.is_ascii_lowercase() && are_small_or_digits(rest),
        [] => false,
    }
}
