// The downstream line: what the logging station holds of it this month, in steps.
use crate::records::{band, records, triangle};
use cells::cell::Record;
use station::line::{BOXES_OF_A_LINE, Junction, TIPS_OF_A_LINE};
use station::logger::Logged;

// The channel of each tip, as the cables were led into the logger.
pub const CHANNELS: [usize; TIPS_OF_A_LINE] = [0, 1, 3, 2, 4, 5, 9, 8, 7, 6, 11, 10];

// Channel by channel.
pub fn logged() -> Logged {
    Logged {
        instruments: [
            41_102, 41_103, 41_208, 41_107, 41_209, 41_211, 41_417, 41_306, 41_304, 41_301, 41_420,
            41_419,
        ],
        readings: [
            (1141, 1143),
            (1088, 1090),
            (1000, 1002),
            (1041, 1043),
            (962, 964),
            (921, 923),
            (857, 860),
            (760, 762),
            (817, 819),
            (873, 875),
            // a loose contact: the current jumps over nearly all of the instrument's range
            (410, 2090),
            (744, 747),
        ]
        .map(Record::from),
    }
}

// From the core outward, so that the pressure falls from tip to tip. The readings are those of the tips in this order.
pub fn boxes(readings: &[Record; TIPS_OF_A_LINE]) -> [Junction; BOXES_OF_A_LINE] {
    [
        Junction {
            readings: [readings[0], readings[1], readings[2]],
            offsets: records([(-10010, -9990), (-10010, -9990), (-10010, -9990)]),
            calibration: band(
                [(2500, 2502), (2500, 2502), (2499, 2501)],
                [(-30, -20), (-30, -20)],
                [(12, 18), (12, 18)],
            ),
            factors: triangle([(99, 100), (1, 2), (0, 1), (98, 99), (2, 2), (97, 98)]),
            dips: [Some(18760), Some(17130), Some(15720)],
        },
        // the grout at tip 17 has loosened: the share of its own pressure has drifted over zero
        Junction {
            readings: [readings[3], readings[4], readings[5]],
            offsets: records([(-10010, -9990), (-10010, -9990), (-10010, -9990)]),
            calibration: band(
                [(2501, 2503), (2499, 2501), (2500, 2502)],
                [(-30, -20), (-30, -20)],
                [(12, 18), (12, 18)],
            ),
            factors: triangle([(98, 99), (1, 2), (0, 1), (-2, 5), (1, 2), (98, 99)]),
            dips: [Some(15120), Some(14080), Some(13060)],
        },
        // no dip was taken at tip 21
        Junction {
            readings: [readings[6], readings[7], readings[8]],
            offsets: records([(-10010, -9990), (-10010, -9990), (-10010, -9990)]),
            calibration: band(
                [(2500, 2501), (2501, 2502), (2500, 2501)],
                [(12, 18), (12, 18)],
                [(-24, -16), (-24, -16)],
            ),
            factors: triangle([(99, 99), (1, 2), (0, 0), (98, 99), (1, 1), (98, 98)]),
            dips: [Some(11810), Some(10480), None],
        },
        // the loose contact of tip 24 stops its box
        Junction {
            readings: [readings[9], readings[10], readings[11]],
            offsets: records([(-6255, -6245), (-6255, -6245), (-35030, -34970)]),
            calibration: band(
                [(1562, 1563), (1562, 1563), (8745, 8755)],
                [(12, 18), (12, 18)],
                [(-9, -6), (-9, -6)],
            ),
            factors: triangle([(99, 100), (1, 2), (0, 1), (98, 99), (1, 2), (97, 98)]),
            dips: [Some(7150), Some(5390), Some(2840)],
        },
    ]
}
