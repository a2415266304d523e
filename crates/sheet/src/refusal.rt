// Why a call is refused, and the fault of a call that worked out a bound beyond the limit.
ghost use Rattle.std.specs.Prelude.{◌≡◌};
ghost use Rattle.sheet.specs.Refusals.{number, call_of, column_of, row_of, bound_of};
ghost use Rattle.sheet.specs.declared.refusal.Refusal.TheVariants.{BeyondLimit};

use cells::fault::CellFault;
use rounding::fault::Bound;

// What a sheet is asked to do.
#[derive(Clone, Copy, PartialEq, Eq)]
pub enum CallName {
    Open,
    Set,
    Begin,
    Dot,
    Sum,
    Blend,
    Product,
    Solve,
    Join,
    Copy,
    Permute,
    Post,
    Withdraw,
    OneNorm,
    InfinityNorm,
    Largest,
    Smallest,
    Width,
    Middle,
    Enclosed,
    // the permutation of a run that is no column
    PermuteRun,
}

// The sheet's fault: the cell's fault, carried whole, with the call and the column.
#[derive(Clone, Copy)]
pub struct SheetFault {
    pub call: CallName,
    pub column: usize,
    pub cell: CellFault,
}

// A refusal by its number: each case says what is wrong, and where.
#[derive(Clone, Copy)]
pub enum Refusal {
    // 1: the scale is below 1 or above 100,000
    ScaleOutside,
    // 2: rows outside 1 to 1,024, columns outside 1 to 64, or more than 4,096 cells
    ShapeOutside,
    // 3: the supplied cells, or the supplied draft, are not as many as the shape says
    WrongLength {
        call: CallName,
        column: usize,
    },
    // 4: the column that is told is not below the number of columns
    NoSuchColumn {
        call: CallName,
        column: usize,
    },
    // 5: the row is not below the number of rows
    NoSuchRow {
        call: CallName,
        column: usize,
        row: usize,
    },
    // 6: the two numbers that were to be set are no cell
    NoCell {
        column: usize,
    },
    // 7: the layout has more rows or more columns than a column has cells
    LayoutTooLarge {
        call: CallName,
        column: usize,
    },
    // 8: a diagonal entry that is not empty holds 0
    DivisorHoldsZero {
        column: usize,
        row: usize,
    },
    // 9: the list is not the numbers from 0 to n - 1, each once
    NoPermutation {
        call: CallName,
        column: usize,
    },
    // 10: a bound that was worked out is beyond the limit
    BeyondLimit(SheetFault),
}

// `?` alone cannot add the call and the column, so `map_err` puts them beside the fault first.
impl From<(CallName, usize, CellFault)> for SheetFault {
    ghost from_gives = { λ a r. r ≡ record { call = a.0; column = a.1; cell = a.2 } };

    fn from((call, column, cell): (CallName, usize, CellFault)) -> SheetFault {
        SheetFault { call, column, cell }
    }
}

impl From<SheetFault> for Refusal {
    ghost from_gives = { λ a r. r ≡ BeyondLimit a };

    fn from(fault: SheetFault) -> Refusal {
        Refusal::BeyondLimit(fault)
    }
}

// What a refusal says, as plain values.
impl Refusal {
    pub fn number(self) -> u32
        ensures { result ≡ number self }
    {
        match self {
            Refusal::ScaleOutside => 1,
            Refusal::ShapeOutside => 2,
            Refusal::WrongLength { .. } => 3,
            Refusal::NoSuchColumn { .. } => 4,
            Refusal::NoSuchRow { .. } => 5,
            Refusal::NoCell { .. } => 6,
            Refusal::LayoutTooLarge { .. } => 7,
            Refusal::DivisorHoldsZero { .. } => 8,
            Refusal::NoPermutation { .. } => 9,
            Refusal::BeyondLimit(_) => 10,
        }
    }

    pub fn call(self) -> CallName
        ensures { result ≡ call_of self }
    {
        match self {
            Refusal::ScaleOutside | Refusal::ShapeOutside => CallName::Open,
            Refusal::WrongLength { call, .. }
            | Refusal::NoSuchColumn { call, .. }
            | Refusal::NoSuchRow { call, .. }
            | Refusal::LayoutTooLarge { call, .. }
            | Refusal::NoPermutation { call, .. } => call,
            Refusal::NoCell { .. } => CallName::Set,
            Refusal::DivisorHoldsZero { .. } => CallName::Solve,
            Refusal::BeyondLimit(fault) => fault.call,
        }
    }

    // The target, the drafted or the first asked-about column; where a column is refused, the first bad one; 0 where none is named.
    pub fn column(self) -> usize
        ensures { result ≡ column_of self }
    {
        match self {
            Refusal::ScaleOutside | Refusal::ShapeOutside => 0,
            Refusal::WrongLength { column, .. }
            | Refusal::NoSuchColumn { column, .. }
            | Refusal::NoSuchRow { column, .. }
            | Refusal::NoCell { column }
            | Refusal::LayoutTooLarge { column, .. }
            | Refusal::DivisorHoldsZero { column, .. }
            | Refusal::NoPermutation { column, .. } => column,
            Refusal::BeyondLimit(fault) => fault.column,
        }
    }

    // The row that is wrong; 0 where none is named.
    pub fn row(self) -> usize
        ensures { result ≡ row_of self }
    {
        match self {
            Refusal::NoSuchRow { row, .. } | Refusal::DivisorHoldsZero { row, .. } => row,
            Refusal::BeyondLimit(fault) => fault.cell.row,
            _ => 0,
        }
    }

    // The bound that is beyond the limit.
    pub fn bound(self) -> Option<Bound>
        ensures { result ≡ bound_of self }
    {
        match self {
            Refusal::BeyondLimit(fault) => Some(fault.cell.rounding.bound),
            _ => None,
        }
    }
}
