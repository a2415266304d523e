// The two bounds of an interval.
#[derive(Clone, Copy)]
pub enum Bound {
    Lower,
    Upper,
}

// A rounded bound is beyond the limit in size; this one is, the lower being looked at first.
#[derive(Clone, Copy)]
pub struct RoundingFault {
    pub bound: Bound,
}
