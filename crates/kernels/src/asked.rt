// What C tells with a call.
ghost use Rattle.std.specs.Prelude.{◌≡◌};
ghost use Rattle.kernels.specs.Whole.{shape_of};

use cells::cell::Record;
use sheet::shape::Shape;

// The shape of the sheet, the target of the call and one column more, the factors, and in how many rounds the call is made and
// withdrawn before it is made and posted.
#[repr(C)]
#[derive(Clone, Copy)]
pub struct Asked {
    pub scale: i64,
    pub rows: usize,
    pub columns: usize,
    pub target: usize,
    pub operand: usize,
    pub alpha: Record,
    pub beta: Record,
    pub rounds: usize,
}

impl Asked {
    pub(crate) fn shape(self) -> Shape
        ensures { result ≡ shape_of self }
    {
        Shape {
            scale: self.scale,
            rows: self.rows,
            columns: self.columns,
        }
    }
}
