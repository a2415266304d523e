// What a line of a script asks for.
use crate::words::Words;
use cells::cell::Record;
use layouts::side::Side;
use stacks::storage::Scheme;

// K, I, X and Y are columns and rows as the format names them. A name is the bytes of its word.
#[derive(Clone, Copy)]
pub enum Line<'a> {
    Open {
        unit: i64,
        rows: usize,
        columns: usize,
    },
    Ask(Ask<'a>),
    // a name, and what it is bound to
    Matrix(&'a [u8], Matrix<'a>),
    // the lengths that are told, or none for the right ones
    Lengths(Option<(usize, usize)>),
}

// What is asked of a sheet that is open.
#[derive(Clone, Copy)]
pub enum Ask<'a> {
    Set { k: usize, i: usize, bounds: Bounds },
    Begin,
    Call(Call<'a>),
    Post,
    Withdraw,
    Question(Question),
}

// What a cell is to be set to.
#[derive(Clone, Copy)]
pub struct Bounds {
    pub lower: i64,
    pub upper: i64,
}

// The calls of a working sheet.
#[derive(Clone, Copy)]
pub enum Call<'a> {
    Dot {
        k: usize,
        i: usize,
        x: usize,
        y: usize,
        alpha: Record,
        beta: Record,
    },
    Sum {
        k: usize,
        i: usize,
        x: usize,
    },
    Blend {
        k: usize,
        x: usize,
        alpha: Record,
        beta: Record,
    },
    Product {
        k: usize,
        x: usize,
        matrix: &'a [u8],
        alpha: Record,
        beta: Record,
    },
    Solve {
        k: usize,
        matrix: &'a [u8],
        alpha: Record,
    },
    Join {
        k: usize,
        x: usize,
        rule: Rule,
    },
    Copy {
        k: usize,
        x: usize,
    },
    Permute {
        k: usize,
        order: Words<'a>,
    },
}

#[derive(Clone, Copy)]
pub enum Rule {
    Meet,
    Hull,
}

#[derive(Clone, Copy)]
pub enum Question {
    OneNorm { k: usize },
    InfinityNorm { k: usize },
    Largest { k: usize },
    Smallest { k: usize },
    Width { k: usize, i: usize },
    Middle { k: usize, i: usize },
    Enclosed { k: usize, x: usize },
}

#[derive(Clone, Copy)]
pub enum Matrix<'a> {
    Stored { scheme: Scheme, run: Words<'a> },
    Transposed { other: &'a [u8] },
    Symmetric { side: Side, other: &'a [u8] },
    Triangle { side: Side, other: &'a [u8] },
    Unit { unit: i64, other: &'a [u8] },
}
