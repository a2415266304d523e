// Line after line of the script.
ghost use Rattle.std.specs.Prelude.{◌≡◌};
ghost use Rattle.replay.specs.Stages.{Fits};

use crate::answer::Answer;
use crate::memory::{Memory, Runs};
use crate::names::Names;
use crate::stage::{self, Free, Left, Stage};
use cells::cell::Record;
use cells::reading::read;
use layouts::figures::Figures;
use layouts::unit_diagonal::UnitDiagonal;
use script::line::{Line, Matrix};
use script::reading;
use sheet::shape::Shape;
use stacks::layered::{Layer, Ones};
use stacks::shared_stack::SharedStack;
use std::alloc::{AllocError, Global};
use std::collections::HashMap;
use std::fmt;
use std::io::{self, BufWriter, Write};

fn lengths(
    heap: Global,
    lengths: Option<(usize, usize)>,
    memory: &mut Memory,
) -> Result<(), AllocError>
    ensures { memory.new.own ≡ memory.old.own }
{
    memory.told = match lengths {
        None => None,
        Some((cells, draft)) => Some(Runs::empty(heap, cells, draft)?),
    };
    Ok(())
}

// What a matrix line makes, with its answer; none where it is not taken.
fn made(
    heap: Global,
    matrix: Matrix<'_>,
    names: &Names,
) -> Result<Option<(SharedStack, Answer)>, AllocError> {
    match matrix {
        Matrix::Stored { scheme, run } => {
            let run = run.to_cells(heap)?;
            let answer = match scheme.over(&run).check() {
                Ok(()) => Answer::Granted,
                Err(_) => Answer::Unfit,
            };
            Ok(Some((SharedStack::new(heap, scheme, run)?, answer)))
        }
        Matrix::Transposed { other } => match names.get(other) {
            None => Ok(None),
            Some(below) => Ok(Some((below.with_layer(heap, Layer::Transposed)?, Answer::Granted))),
        },
        Matrix::Symmetric { side, other } => match names.get(other) {
            None => Ok(None),
            Some(below) => Ok(Some((
                below.with_layer(heap, Layer::Symmetric(side))?,
                Answer::Granted,
            ))),
        },
        Matrix::Triangle { side, other } => match names.get(other) {
            None => Ok(None),
            Some(below) => Ok(Some((
                below.with_layer(heap, Layer::Triangle(side))?,
                Answer::Granted,
            ))),
        },
        Matrix::Unit { unit, other } => match names.get(other) {
            None => Ok(None),
            Some(below) => match below.triangle() {
                None => Ok(None),
                Some(triangle) => {
                    let ones = Ones {
                        side: triangle.side,
                        unit,
                    };
                    let layer = UnitDiagonal {
                        below: triangle,
                        unit,
                    };
                    let answer = match layer.check() {
                        Ok(()) => Answer::Granted,
                        Err(_) => Answer::Unfit,
                    };
                    Ok(Some((below.with_layer(heap, Layer::Unit(ones))?, answer)))
                }
            },
        },
    }
}

fn bind(
    heap: Global,
    name: &[u8],
    matrix: Matrix<'_>,
    names: &mut Names,
) -> Result<Answer, AllocError> {
    match made(heap, matrix, names)? {
        None => Ok(Answer::NotTaken),
        Some((bound, answer)) => {
            let name = Vec::from_slice(heap, name)?;
            names.insert(name, bound)?;
            Ok(answer)
        }
    }
}

fn perform(
    stage: Stage,
    heap: Global,
    line: Line<'_>,
    names: &mut Names,
    memory: &mut Memory,
) -> Left
    requires { Fits stage memory.old.own.cells.items memory.old.own.draft.items }
    ensures { Fits result.stage memory.new.own.cells.items memory.new.own.draft.items }
{
    match line {
        Line::Open {
            unit,
            rows,
            columns,
        } => stage::open(stage, heap, unit, rows, columns, memory),
        Line::Ask(ask) => stage::ask(stage, heap, ask, names, memory),
        Line::Matrix(name, matrix) => {
            let answer = bind(heap, name, matrix, names).unwrap_or(Answer::NoMemory);
            Left { stage, answer }
        }
        Line::Lengths(told) => {
            let answer = match lengths(heap, told, memory) {
                Ok(()) => Answer::Granted,
                Err(_) => Answer::NoMemory,
            };
            Left { stage, answer }
        }
    }
}

// A record as the script has it: both bounds, or a hyphen for the empty cell.
#[derive(Clone, Copy)]
struct Printed(Record);

impl fmt::Display for Printed {
    fn fmt<W: fmt::Write>(&self, f: &mut fmt::Formatter<W>) -> fmt::Result {
        match read(self.0) {
            None => write!(f, "-"),
            Some(pair) => write!(f, "{}..{}", pair.lower, pair.upper),
        }
    }
}

// Cells on one line: those of a run from a place on, each so many places behind the one before it.
fn write_line<W: Write>(out: &mut W, run: &[Record], from: usize, step: usize) -> io::Result<()> {
    let mut first = true;
    let mut place = from;
    for _ in 0..run.len() {
        let Some(record) = run.get(place) else {
            break;
        };
        if !first {
            write!(out, " ")?;
        }
        write!(out, "{}", Printed(*record))?;
        first = false;
        place = place.saturating_add(step);
    }
    writeln!(out)
}

fn write_rows<W: Write>(out: &mut W, shape: Shape, cells: &[Record]) -> io::Result<()> {
    for row in 0..shape.rows {
        write_line(out, cells, row, shape.rows)?;
    }
    Ok(())
}

fn write_draft<W: Write>(out: &mut W, column: usize, draft: &[Record]) -> io::Result<()> {
    writeln!(out, "draft {column}")?;
    write_line(out, draft, 0, 1)
}

// What the sheet holds. A draft that stands is printed and withdrawn.
fn end<W: Write>(stage: Stage, memory: &mut Memory, out: &mut W) -> io::Result<()>
    requires { Fits stage memory.old.own.cells.items memory.old.own.draft.items }
{
    match stage {
        Stage::Free(Free::Closed) => Ok(()),
        Stage::Free(Free::Filling(sheet)) => write_rows(out, sheet.shape(), &memory.own.cells),
        Stage::Free(Free::Working(sheet)) => write_rows(out, sheet.shape(), &memory.own.cells),
        Stage::Drafted(sheet) => {
            let (shape, column) = (sheet.shape(), sheet.column());
            let written = write_rows(out, shape, &memory.own.cells);
            let drafted = write_draft(out, column, &memory.own.draft);
            match sheet.withdraw(&memory.own.cells, &mut memory.own.draft) {
                Ok(_) => {}
                Err(_) => unreachable!(),
            }
            written?;
            drafted
        }
    }
}

// The first line of what is left, and what stands behind it; none where nothing is left. Each line ends with a line feed; what stands
// behind the last one was cut off, and breaks the format.
fn first_line(rest: &[u8]) -> Option<(Option<Line<'_>>, &[u8])> {
    match rest.iter().position(|b| *b == b'\n') {
        Some(at) => Some((reading::line(&rest[..at]), &rest[at + 1..])),
        None if rest.is_empty() => None,
        None => Some((None, &[])),
    }
}

// Answers every line, and then tells what the sheet holds. Once the output takes no more, the rest is performed all the same.
fn answer_lines<W: Write>(heap: Global, script: &[u8], out: &mut W) -> io::Result<()> {
    let mut names = HashMap::new(heap);
    let mut memory = Memory {
        own: Runs::new(heap),
        told: None,
    };
    let mut stage = Stage::Free(Free::Closed);
    let mut written = Ok(());
    let mut rest = script;
    for _ in 0..script.len() {
        let Some((line, behind)) = first_line(rest) else {
            break;
        };
        rest = behind;
        let Left {
            stage: next,
            answer,
        } = match line {
            None => Left {
                stage,
                answer: Answer::Malformed,
            },
            Some(line) => perform(stage, heap, line, &mut names, &mut memory),
        };
        stage = next;
        if written.is_ok() {
            written = writeln!(out, "{answer}");
        }
    }
    let told = end(stage, &mut memory, out);
    written?;
    told
}

pub fn run(rt: &(impl Print + AllocGlobal), script: &[u8]) -> io::Result<()> {
    let mut out = BufWriter::new(rt.alloc(), io::writer(rt))?;
    answer_lines(rt.alloc(), script, &mut out)?;
    out.flush()
}
