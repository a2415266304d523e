// Whole matrices, read from each storage scheme that BLAS has and under each layer, and below each matrix the spans that its
// layout answers. The stored output is what the reference BLAS reads from the same runs, with the narrowest spans of that, written
// by `tools/storages-by-blas`. A span that is wider than it need be still meets its contract, so no proof shows it.
#![tactic(auto)]

use cells::cell::{Cell, Places, Record};
use layouts::band::Band;
use layouts::dense::Dense;
use layouts::layout::{Layout, Triangular};
use layouts::packed::Packed;
use layouts::side::Side;
use layouts::symmetric::Symmetric;
use layouts::transposed::Transposed;
use layouts::triangle::Triangle;
use layouts::unit_diagonal::UnitDiagonal;
use std::{array, fmt, io};

// The number of steps to one unit.
const UNIT: i32 = 1000;

const PLACES: usize = 30;

const SIDES: [Side; 2] = [Side::Lower, Side::Upper];

// Place k holds k + 2 units, and so does a place that no entry uses: an entry shows where it was read. No place holds one
// unit, so a one comes from a unit diagonal. No place holds zero, so an entry is zero only where nothing is stored for it.
fn numbered() -> [Record; PLACES] {
    array::from_fn(|k| {
        let steps = UNIT * (k as i32 + 2);
        Record::from((steps, steps))
    })
}

// The sizes of the storages that symmetric and triangular matrices are read from.
const DENSE: &str = "4 by 4, stride 5";

const BAND: &str = "5 by 5, 2 off the diagonal, stride 4";

const PACKED: &str = "4 by 4";

fn dense(run: &[Record; PLACES]) -> Dense<'_> {
    Dense {
        run: &run[0..20],
        rows: 4,
        columns: 4,
        stride: 5,
    }
}

// A band that has places on one side of the diagonal only.
fn band(run: &[Record; PLACES], side: Side) -> Band<'_> {
    let (below, above) = match side {
        Side::Lower => (2, 0),
        Side::Upper => (0, 2),
    };
    Band {
        run: &run[0..20],
        rows: 5,
        columns: 5,
        below,
        above,
        stride: 4,
    }
}

fn packed(run: &[Record; PLACES], side: Side) -> Packed<'_> {
    Packed {
        run: &run[0..10],
        side,
        n: 4,
    }
}

// A cell as it is printed: one number where both bounds are the same, a dash where it is empty.
#[derive(Clone, Copy)]
struct Printed(Cell);

impl fmt::Display for Printed {
    fn fmt<W: fmt::Write>(&self, f: &mut fmt::Formatter<W>) -> fmt::Result {
        match self.0 {
            None => write!(f, "-"),
            Some(pair) if pair.lower == pair.upper => write!(f, "{}", pair.lower),
            Some(pair) => write!(f, "{}..{}", pair.lower, pair.upper),
        }
    }
}

// A scheme that symmetric or triangular matrices are read from: BLAS's name of it, and the size.
#[derive(Clone, Copy)]
struct Scheme {
    name: &'static str,
    size: &'static str,
}

const SY: Scheme = Scheme {
    name: "SY",
    size: DENSE,
};

const SB: Scheme = Scheme {
    name: "SB",
    size: BAND,
};

const SP: Scheme = Scheme {
    name: "SP",
    size: PACKED,
};

const TR: Scheme = Scheme {
    name: "TR",
    size: DENSE,
};

const TB: Scheme = Scheme {
    name: "TB",
    size: BAND,
};

const TP: Scheme = Scheme {
    name: "TP",
    size: PACKED,
};

// What stands above a matrix that is read from one side of a scheme.
#[derive(Clone, Copy)]
struct Heading {
    scheme: Scheme,
    side: Side,
}

impl fmt::Display for Heading {
    fn fmt<W: fmt::Write>(&self, f: &mut fmt::Formatter<W>) -> fmt::Result {
        let side = match self.side {
            Side::Lower => "lower",
            Side::Upper => "upper",
        };
        write!(f, "{} {side}, {}", self.scheme.name, self.scheme.size)
    }
}

// A row of a matrix as it is printed.
#[derive(Clone, Copy)]
struct Row<'a, L> {
    matrix: &'a L,
    row: usize,
}

impl<'a, L: Layout> fmt::Display for Row<'a, L> {
    fn fmt<W: fmt::Write>(&self, f: &mut fmt::Formatter<W>) -> fmt::Result {
        let columns = 0..self.matrix.columns();
        f.write_joined(
            columns.map(|column| Printed(self.matrix.entry(self.row, column))),
            " ",
        )
    }
}

// A span as it is printed: its first place and its last, a dash where it has none.
#[derive(Clone, Copy)]
struct Span(Places);

impl fmt::Display for Span {
    fn fmt<W: fmt::Write>(&self, f: &mut fmt::Formatter<W>) -> fmt::Result {
        let Places { from, to } = self.0;
        if from == to {
            write!(f, "-")
        } else {
            write!(f, "{from}-{}", to - 1)
        }
    }
}

// The spans of all rows of a matrix as they are printed.
#[derive(Clone, Copy)]
struct Across<'a, L>(&'a L);

impl<'a, L: Layout> fmt::Display for Across<'a, L> {
    fn fmt<W: fmt::Write>(&self, f: &mut fmt::Formatter<W>) -> fmt::Result {
        let rows = 0..self.0.rows();
        f.write_joined(rows.map(|row| Span(self.0.across(row))), " ")
    }
}

// The spans of all columns of a matrix as they are printed.
#[derive(Clone, Copy)]
struct Down<'a, L>(&'a L);

impl<'a, L: Layout> fmt::Display for Down<'a, L> {
    fn fmt<W: fmt::Write>(&self, f: &mut fmt::Formatter<W>) -> fmt::Result {
        let columns = 0..self.0.columns();
        f.write_joined(columns.map(|column| Span(self.0.down(column))), " ")
    }
}

fn print_matrix<L: Layout>(
    rt: &HostRuntime,
    heading: impl fmt::Display + Drop,
    matrix: &L,
) -> io::Result<()> {
    println!(rt; "{heading}")?;
    // a layout is asked by row and column, and is no slice
    for row in 0..matrix.rows() {
        println!(rt; "{}", Row { matrix, row })?;
    }
    println!(rt; "across {}", Across(matrix))?;
    println!(rt; "down {}", Down(matrix))?;
    println!(rt)
}

fn print_transposed<L: Layout>(
    rt: &HostRuntime,
    heading: impl fmt::Display + Drop,
    matrix: &L,
) -> io::Result<()> {
    let heading = format_args!("{heading}, transposed");
    print_matrix(rt, heading, &Transposed { below: matrix })
}

fn print_general<L: Layout>(rt: &HostRuntime, heading: &str, matrix: &L) -> io::Result<()> {
    print_matrix(rt, heading, matrix)?;
    print_transposed(rt, heading, matrix)
}

// Each side of a storage, as a symmetric matrix.
fn print_symmetric<L: Layout + Drop, F: Fn(Side) -> L>(
    rt: &HostRuntime,
    scheme: Scheme,
    stored: F,
) -> io::Result<()>
    requires { F.IsAlwaysCallable stored }
{
    for side in SIDES {
        let below = stored(side);
        let heading = Heading { scheme, side };
        print_matrix(rt, heading, &Symmetric { below, side })?;
    }
    Ok(())
}

// With the diagonal that is stored and with ones on it, then both transposed.
fn print_triangle<T: Triangular>(rt: &HostRuntime, scheme: Scheme, matrix: &T) -> io::Result<()> {
    let side = matrix.side();
    let heading = Heading { scheme, side };
    let with_ones_heading = format_args!("{heading}, unit diagonal");
    let with_ones = UnitDiagonal {
        below: matrix,
        unit: UNIT as i64,
    };
    print_matrix(rt, heading, matrix)?;
    print_matrix(rt, &with_ones_heading, &with_ones)?;
    print_transposed(rt, heading, matrix)?;
    print_transposed(rt, &with_ones_heading, &with_ones)
}

// Each side of a storage, as a triangle.
fn print_triangular<T: Triangular + Drop, F: Fn(Side) -> T>(
    rt: &HostRuntime,
    scheme: Scheme,
    stored: F,
) -> io::Result<()>
    requires { F.IsAlwaysCallable stored }
{
    for side in SIDES {
        print_triangle(rt, scheme, &stored(side))?;
    }
    Ok(())
}

fn print_generals(rt: &HostRuntime, run: &[Record; PLACES]) -> io::Result<()> {
    let dense = Dense {
        run,
        rows: 4,
        columns: 5,
        stride: 6,
    };
    print_general(rt, "GE 4 by 5, stride 6", &dense)?;
    let band = Band {
        run,
        rows: 5,
        columns: 6,
        below: 1,
        above: 2,
        stride: 5,
    };
    print_general(rt, "GB 5 by 6, 1 below, 2 above, stride 5", &band)
}

fn print_symmetrics(rt: &HostRuntime, run: &[Record; PLACES]) -> io::Result<()> {
    print_symmetric(rt, SY, |_| dense(run))?;
    print_symmetric(rt, SB, |side| band(run, side))?;
    print_symmetric(rt, SP, |side| packed(run, side))
}

fn print_triangulars(rt: &HostRuntime, run: &[Record; PLACES]) -> io::Result<()> {
    print_triangular(
        rt,
        TR,
        |side| Triangle {
            below: dense(run),
            side,
        },
    )?;
    print_triangular(
        rt,
        TB,
        |side| Triangle {
            below: band(run, side),
            side,
        },
    )?;
    print_triangular(rt, TP, |side| packed(run, side))
}

fn main(rt: HostRuntime) -> io::Result<()> {
    let run = numbered();
    print_generals(&rt, &run)?;
    print_symmetrics(&rt, &run)?;
    print_triangulars(&rt, &run)
}
