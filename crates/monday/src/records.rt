// The records of a junction box, from the numbers that the station's tables have, in steps.
use cells::cell::{EMPTY, Record};
use station::line::{CALIBRATION_PLACES, FACTOR_PLACES, TIPS_OF_A_BOX};

// A lower and an upper number.
pub type Pair = (i32, i32);

pub fn records(pairs: [Pair; TIPS_OF_A_BOX]) -> [Record; TIPS_OF_A_BOX] {
    pairs.map(Record::from)
}

// Band storage, column after column, each from above the diagonal to below it. The first column has nothing above and the
// last nothing below, so the first and the last place of the run belong to no entry.
pub fn band(
    diagonal: [Pair; 3],
    below: [Pair; 2],
    above: [Pair; 2],
) -> [Record; CALIBRATION_PLACES] {
    [
        EMPTY,
        Record::from(diagonal[0]),
        Record::from(below[0]),
        Record::from(above[0]),
        Record::from(diagonal[1]),
        Record::from(below[1]),
        Record::from(above[1]),
        Record::from(diagonal[2]),
        EMPTY,
    ]
}

// Packed storage of a lower triangle, column after column, each from the diagonal down.
pub fn triangle(columns: [Pair; FACTOR_PLACES]) -> [Record; FACTOR_PLACES] {
    columns.map(Record::from)
}
