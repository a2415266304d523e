// The upstream line: what the logging station holds of it this month, in steps.
use crate::records::{band, records, triangle};
use account::records::NOTHING;
use cells::cell::Record;
use station::line::{BOXES_OF_A_LINE, Junction, TIPS_OF_A_LINE};
use station::logger::Logged;

// The channel of each tip, as the cables were led into the logger.
pub const CHANNELS: [usize; TIPS_OF_A_LINE] = [2, 0, 1, 5, 3, 4, 8, 9, 11, 6, 7, 10];

// Channel by channel.
pub fn logged() -> Logged {
    Logged {
        instruments: [
            40_118, 40_121, 40_117, 40_231, 40_236, 40_230, 40_412, 40_415, 40_341, 40_342, 40_418,
            40_343,
        ],
        readings: [
            (1552, 1555),
            (1098, 1102),
            (1648, 1651),
            // spoilt in the station's memory: the lower number stands above the upper
            (1357, 1354),
            (1290, 1293),
            // its loop is open
            NOTHING,
            (972, 975),
            (630, 633),
            (1233, 1235),
            (1040, 1043),
            (399, 402),
            (539, 541),
        ]
        .map(Record::from),
    }
}

// From the core outward, so that the pressure falls from tip to tip. The readings are those of the tips in this order.
pub fn boxes(readings: &[Record; TIPS_OF_A_LINE]) -> [Junction; BOXES_OF_A_LINE] {
    [
        Junction {
            readings: [readings[0], readings[1], readings[2]],
            offsets: records([(-10010, -9990), (-10010, -9990), (-15015, -14985)]),
            calibration: band(
                [(2500, 2502), (2501, 2503), (3748, 3752)],
                [(-30, -20), (12, 18)],
                [(-30, -20), (-24, -16)],
            ),
            factors: triangle([(98, 99), (1, 2), (0, 1), (97, 98), (1, 2), (98, 98)]),
            dips: [Some(31370), Some(28210), Some(26130)],
        },
        // of these three only tip 6 reads well
        Junction {
            readings: [readings[3], readings[4], readings[5]],
            offsets: records([(-10010, -9990), (-10010, -9990), (-10010, -9990)]),
            calibration: band(
                [(2500, 2502), (2500, 2502), (2499, 2501)],
                [(-30, -20), (-30, -20)],
                [(12, 18), (12, 18)],
            ),
            factors: triangle([(98, 99), (1, 2), (0, 1), (98, 99), (1, 2), (97, 98)]),
            dips: [Some(24630), Some(23300), Some(22310)],
        },
        Junction {
            readings: [readings[6], readings[7], readings[8]],
            offsets: records([(-10010, -9990), (-10010, -9990), (-35030, -34970)]),
            calibration: band(
                [(2499, 2501), (2498, 2500), (8745, 8755)],
                [(12, 18), (12, 18)],
                [(-30, -20), (-30, -20)],
            ),
            factors: triangle([(99, 100), (2, 2), (0, 1), (98, 98), (1, 2), (97, 98)]),
            dips: [Some(21960), Some(15990), Some(12450)],
        },
        // no dip was taken at tip 10; tip 12 stands nearly dry
        Junction {
            readings: [readings[9], readings[10], readings[11]],
            offsets: records([(-6255, -6245), (-6255, -6245), (-6350, -6340)]),
            calibration: band(
                [(1562, 1563), (1562, 1563), (1562, 1563)],
                [(12, 18), (12, 18)],
                [(-9, -6), (-9, -6)],
            ),
            factors: triangle([(99, 100), (1, 1), (0, 0), (98, 99), (0, 1), (99, 100)]),
            dips: [None, Some(3720), Some(10)],
        },
    ]
}
