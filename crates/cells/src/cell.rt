// The types. They have a file of their own, since the definitions that the functions cite name them.
ghost use Rattle.std.specs.Prelude.{◌≤◌, ◌≤ℤ◌, unsigned_abs};
ghost use Rattle.rounding.specs.Limit.{lowest, highest};
ghost use Rattle.cells.specs.Scales.{IsScale};

use rounding::numbers::Sums;

// A cell as it lies in supplied memory: any two numbers may stand there.
#[repr(C)]
#[derive(Clone, Copy, PartialEq, Eq)]
pub struct Record {
    pub lower: i32,
    pub upper: i32,
}

// The record that is written for the empty cell.
pub const EMPTY: Record = Record { lower: 1, upper: 0 };

// The bounds of a cell that is not empty, in steps: in order, and neither beyond the limit of 131,071 in size.
#[derive(Clone, Copy)]
pub struct Interval {
    pub lower: i32,
    pub upper: i32,
    ghost low: { lowest ≤ℤ lower },
    ghost order: { lower ≤ℤ upper },
    ghost high: { upper ≤ℤ highest },
}

// None is the empty cell.
pub type Cell = Option<Interval>;

// The number of steps to one unit, from 1 to 100,000.
#[derive(Clone, Copy)]
pub struct Scale {
    pub steps: i64,
    ghost legal: { IsScale steps },
}

// The number of terms of a sum, from 0 to 1,024.
#[derive(Clone, Copy)]
pub struct Terms {
    pub count: usize,
    ghost few: { count ≤ 1024 },
}

// The factors of a formula, at the scale of all its cells: alpha multiplies what is worked out anew, beta the old cell.
#[derive(Clone, Copy)]
pub struct Factors {
    pub scale: Scale,
    pub alpha: Cell,
    pub beta: Cell,
}

// The place of a column whose cell a formula works out anew.
#[derive(Clone, Copy)]
pub struct Target<'a> {
    pub column: &'a [Record],
    pub row: usize,
}

// Neighbouring places of a row or of a column, from `from` to before `to`: at most 1,024 of them.
#[derive(Clone, Copy)]
pub struct Places {
    pub from: usize,
    pub to: usize,
    ghost order: { from ≤ to },
    ghost few: { to ≤ 1024 },
}

// The least and the greatest of unrounded values, neither beyond `MOST` in size.
#[derive(Clone, Copy)]
pub struct Extremes<const MOST: u64> {
    pub least: i64,
    pub greatest: i64,
    ghost least_size: { unsigned_abs least ≤ MOST },
    ghost greatest_size: { unsigned_abs greatest ≤ MOST },
}

// Of the product of two cells: at most 131,071 squared.
pub type Product = Extremes<17_179_607_041>;

// Of a sum of at most 1,024 products of two cells: at most 1,024 times 131,071 squared, which is below 2^44.
pub type Totals = Extremes<17_591_917_609_984>;

// A sum of products, unrounded: none as soon as an operand is empty.
pub type Total = Option<Totals>;

// A sum that is ready to be divided and rounded: none as soon as an operand is empty.
pub type Sum = Option<Sums>;
