// A storage whose scheme is known only while the program runs.
ghost use Rattle.std.specs.Prelude.{◌≡◌};
ghost use Rattle.stacks.specs.Stacks.{stored, stored_sound, stored_fit, stored_unfit, stored_side, read_by};

use cells::cell::{Cell, Places, Record};
use layouts::band::Band;
use layouts::dense::Dense;
use layouts::figures::Figures;
use layouts::layout::Layout;
use layouts::packed::Packed;
use layouts::side::Side;

#[derive(Clone, Copy)]
pub enum Storage<'a> {
    Dense(Dense<'a>),
    Band(Band<'a>),
    Packed(Packed<'a>),
}

impl Figures for Storage<'_> {
    ghost fit = { λ s. stored_fit s };

    ghost unfit = { λ s. stored_unfit s };

    fn is_fit(&self) -> bool {
        match self {
            Storage::Dense(below) => below.is_fit(),
            Storage::Band(below) => below.is_fit(),
            Storage::Packed(below) => below.is_fit(),
        }
    }
}

impl Layout for Storage<'_> {
    ghost meaning = { λ s. stored s };

    ghost sound = { λ s. stored_sound s };

    fn rows(&self) -> usize {
        match self {
            Storage::Dense(below) => below.rows(),
            Storage::Band(below) => below.rows(),
            Storage::Packed(below) => below.rows(),
        }
    }

    fn columns(&self) -> usize {
        match self {
            Storage::Dense(below) => below.columns(),
            Storage::Band(below) => below.columns(),
            Storage::Packed(below) => below.columns(),
        }
    }

    fn entry(&self, row: usize, column: usize) -> Cell {
        match self {
            Storage::Dense(below) => below.entry(row, column),
            Storage::Band(below) => below.entry(row, column),
            Storage::Packed(below) => below.entry(row, column),
        }
    }

    fn across(&self, row: usize) -> Places {
        match self {
            Storage::Dense(below) => below.across(row),
            Storage::Band(below) => below.across(row),
            Storage::Packed(below) => below.across(row),
        }
    }

    fn down(&self, column: usize) -> Places {
        match self {
            Storage::Dense(below) => below.down(column),
            Storage::Band(below) => below.down(column),
            Storage::Packed(below) => below.down(column),
        }
    }
}

// How a run is read: the scheme, with its figures.
#[derive(Clone, Copy)]
pub enum Scheme {
    Dense {
        rows: usize,
        columns: usize,
        stride: usize,
    },
    Band {
        rows: usize,
        columns: usize,
        below: usize,
        above: usize,
        stride: usize,
    },
    Packed {
        side: Side,
        n: usize,
    },
}

impl Scheme {
    // The side of a triangular storage.
    pub fn side(self) -> Option<Side>
        ensures { result ≡ stored_side self }
    {
        match self {
            Scheme::Packed { side, .. } => Some(side),
            _ => None,
        }
    }

    // The storage of this scheme over a run.
    pub fn over(self, run: &[Record]) -> Storage<'_>
        ensures { stored result ≡ read_by self run.now }
    {
        match self {
            Scheme::Dense {
                rows,
                columns,
                stride,
            } => Storage::Dense(Dense {
                run,
                rows,
                columns,
                stride,
            }),
            Scheme::Band {
                rows,
                columns,
                below,
                above,
                stride,
            } => Storage::Band(Band {
                run,
                rows,
                columns,
                below,
                above,
                stride,
            }),
            Scheme::Packed { side, n } => Storage::Packed(Packed { run, side, n }),
        }
    }
}
