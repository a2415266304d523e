// What the logging station holds of a junction box, in steps, and how many boxes there are.
use cells::cell::Record;

// How many neighbouring tips are read by one junction box.
pub const TIPS_OF_A_BOX: usize = 3;

pub const BOXES_OF_A_LINE: usize = 4;

pub const TIPS_OF_A_LINE: usize = BOXES_OF_A_LINE * TIPS_OF_A_BOX;

// The upstream line and the downstream line.
pub const BOXES: usize = 2 * BOXES_OF_A_LINE;

// How many records of a run belong to one column of a calibration: above the diagonal, on it and below it.
pub const STRIDE: usize = 3;

pub const CALIBRATION_PLACES: usize = STRIDE * TIPS_OF_A_BOX;

// A triangle of three rows.
pub const FACTOR_PLACES: usize = TIPS_OF_A_BOX * (TIPS_OF_A_BOX + 1) / 2;

// What is held of a junction box: the runs that its pressures are worked out over, and the dips that these are compared with.
// Of each tip there is the reading, the current of its loop in mA, and the offset in kPa. Neighbouring channels of a box leak
// a little into one another, so the calibration is a matrix in band storage, one place below the diagonal and one above: the
// kPa at one tip for each mA that is read at another. What a tip then shows is not yet the pressure at it, since the grout lets in a
// little of the pressures at the tips before it in the box: the factors are a lower triangle in packed storage, column after column,
// with the share of its own pressure on the diagonal and the shares of the others beside it. A dip, where one was taken, is the
// pressure in kPa that the standpipe beside the tip shows; dips stand in a run too, so that one place finds all that is held of a tip.
#[derive(Clone, Copy)]
pub struct Junction {
    pub readings: [Record; TIPS_OF_A_BOX],
    pub offsets: [Record; TIPS_OF_A_BOX],
    pub calibration: [Record; CALIBRATION_PLACES],
    pub factors: [Record; FACTOR_PLACES],
    pub dips: [Option<i32>; TIPS_OF_A_BOX],
}
