// The numbers that a sheet is opened with.
#[derive(Clone, Copy, PartialEq, Eq)]
pub struct Shape {
    // steps to one unit
    pub scale: i64,
    // cells of a column
    pub rows: usize,
    pub columns: usize,
}
