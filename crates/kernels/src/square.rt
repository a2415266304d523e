// Square matrices with n rows and columns over the run that C lends, one of each layout that the benchmark times.
ghost use Rattle.std.specs.Prelude.{◌≡◌};
ghost use Rattle.layouts.specs.declared.side.Side.TheVariants.{Lower};
ghost use Rattle.layouts.specs.Layers.{symmetric, transposed, triangle};
ghost use Rattle.layouts.specs.Stored.{dense, band, packed};

use cells::cell::Record;
use layouts::band::Band;
use layouts::dense::Dense;
use layouts::layout::Layout;
use layouts::packed::Packed;
use layouts::side::Side;
use layouts::symmetric::Symmetric;
use layouts::transposed::Transposed;
use layouts::triangle::Triangle;

pub(crate) fn dense<'a>(run: &'a [Record], n: usize) -> Dense<'a>
    ensures { ⟦<Dense<'a> as Layout>⟧.meaning result ≡ dense run.now n n n }
{
    Dense {
        run,
        rows: n,
        columns: n,
        stride: n,
    }
}

pub(crate) fn band<'a>(
    run: &'a [Record],
    n: usize,
    below: usize,
    above: usize,
    stride: usize,
) -> Band<'a>
    ensures { ⟦<Band<'a> as Layout>⟧.meaning result ≡ band run.now n n below above stride }
{
    Band {
        run,
        rows: n,
        columns: n,
        below,
        above,
        stride,
    }
}

pub(crate) fn packed<'a>(run: &'a [Record], n: usize) -> Packed<'a>
    ensures side { result.side ≡ Lower }
    ensures meaning { ⟦<Packed<'a> as Layout>⟧.meaning result ≡ packed run.now Lower n }
{
    Packed {
        run,
        side: Side::Lower,
        n,
    }
}

// In two clauses: from one, on the meaning of the whole, the check doesn't find the proofs of what C calls.
pub(crate) fn symmetric<'a>(run: &'a [Record], n: usize) -> Symmetric<Packed<'a>>
    ensures side { result.side ≡ Lower }
    ensures below { ⟦<Packed<'a> as Layout>⟧.meaning result.below ≡ packed run.now Lower n }
{
    Symmetric {
        below: packed(run, n),
        side: Side::Lower,
    }
}

pub(crate) fn transposed<'a>(run: &'a [Record], n: usize) -> Transposed<Dense<'a>>
    ensures { ⟦<Transposed<Dense<'a>> as Layout>⟧.meaning result ≡ transposed (dense run.now n n n) }
{
    Transposed {
        below: dense(run, n),
    }
}

// The lower triangle of a layout.
pub(crate) fn lower_of<L: Layout>(below: L) -> Triangle<L>
    ensures side { result.side ≡ Lower }
    ensures below { result.below ≡ below }
{
    Triangle {
        below,
        side: Side::Lower,
    }
}
