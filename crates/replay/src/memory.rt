// The memory of the sheet, and the runs that the calls are supplied in its place while the script tells other lengths.
use cells::cell::{EMPTY, Record};
use std::alloc::{AllocError, Global};

// A length that no sheet has, neither of its cells nor of its draft: a longer run is answered as one of this length is.
const TOO_LONG: usize = 4097;

pub fn empty_run(heap: Global, length: usize) -> Result<Vec<Record>, AllocError> {
    vec![in heap; EMPTY; length.min(TOO_LONG)]
}

#[derive(Drop)]
pub struct Runs {
    pub cells: Vec<Record>,
    pub draft: Vec<Record>,
}

impl Runs {
    pub fn new(heap: Global) -> Runs {
        Runs {
            cells: Vec::new(heap),
            draft: Vec::new(heap),
        }
    }

    // Empty cells of these lengths.
    pub fn empty(heap: Global, cells: usize, draft: usize) -> Result<Runs, AllocError> {
        Ok(Runs {
            cells: empty_run(heap, cells)?,
            draft: empty_run(heap, draft)?,
        })
    }
}

#[derive(Drop)]
pub struct Memory {
    // of the sheet that is open
    pub own: Runs,
    // of the lengths that were told. Nothing is ever written there: a call that is supplied one of them is refused
    pub told: Option<Runs>,
}

impl Memory {
    // For an open, which asks for so many cells and a draft of so many: fresh memory.
    pub fn fresh(&self, heap: Global, cells: usize, draft: usize) -> Result<Runs, AllocError> {
        match &self.told {
            Some(told) => Runs::empty(heap, told.cells.len(), told.draft.len()),
            None => Runs::empty(heap, cells, draft),
        }
    }
}
