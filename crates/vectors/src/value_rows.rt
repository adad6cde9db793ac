// The numbers that are changed in the triangle and its plan.
use crate::values::Change::{Base, Demand, Input, M, N, Numerator, Output, Reason};
use crate::values::{OVER, Run};
use switch::plan::Plan;

// A number of two words: 1 in the high one, and 1 in both.
const HIGH: u64 = 4_294_967_296;

const BOTH: u64 = HIGH + 1;

// The two rates of the triangle, over the largest base.
const LESS: u64 = Plan::MOST_BASE / 4;

const MORE: u64 = Plan::MOST_BASE / 8 * 3;

pub const CHANGES: [Run; 11] = [
    // Each fault of the request is before the one that it already has.
    Run {
        made: &[],
        tried: &[
            Input { port: 4, to: 1 },
            Demand { cell: 27, to: OVER },
            Output { port: 3, to: OVER },
            Input { port: 3, to: OVER },
            N { to: 0 },
            M { to: 9 },
        ],
    },
    // Unused cells of block 1: cell 4 is the first of them and cell 31 the last.
    Run {
        made: &[],
        tried: &[
            Reason { cell: 31, to: 1 },
            Reason { cell: 4, to: 1 },
            Numerator { cell: 31, to: HIGH },
            Numerator { cell: 31, to: BOTH },
            Numerator { cell: 4, to: HIGH },
            Numerator { cell: 4, to: 1 },
        ],
    },
    // Unused cells of block 2 with base 0, and then one of block 1.
    Run {
        made: &[Base { plan: 1, to: 0 }],
        tried: &[
            Reason { cell: 63, to: 255 },
            Numerator { cell: 63, to: HIGH },
            Numerator { cell: 32, to: 1 },
            Reason { cell: 4, to: 1 },
        ],
    },
    // Bases, and the largest one with numerators for it.
    Run {
        made: &[],
        tried: &[Base { plan: 1, to: 0 }],
    },
    Run {
        made: &[],
        tried: &[Base { plan: 1, to: BOTH }],
    },
    Run {
        made: &[],
        tried: &[Base { plan: 1, to: HIGH }],
    },
    Run {
        made: &[
            Numerator { cell: 0, to: LESS },
            Numerator { cell: 8, to: LESS },
            Numerator { cell: 9, to: MORE },
            Numerator { cell: 16, to: LESS },
            Numerator { cell: 17, to: MORE },
            Numerator { cell: 18, to: MORE },
            Numerator { cell: 24, to: LESS },
            Numerator { cell: 25, to: LESS },
            Numerator { cell: 26, to: LESS },
            Numerator { cell: 27, to: LESS },
        ],
        tried: &[Base { plan: 1, to: HIGH }],
    },
    // Each fault of the rates is before the one that they already have.
    Run {
        made: &[],
        tried: &[
            Numerator { cell: 0, to: 3 },
            Numerator { cell: 27, to: 3 },
            Numerator { cell: 9, to: 9 },
            Numerator {
                cell: 8,
                to: u64::MAX,
            },
            Reason { cell: 27, to: 255 },
        ],
    },
    // A port that is full is no bottleneck of a flow that is not among its largest: input 3 has 2 2 1 3.
    Run {
        made: &[Numerator { cell: 26, to: 1 }],
        tried: &[Numerator { cell: 27, to: 3 }, Numerator { cell: 9, to: 2 }],
    },
    // Cell 9 has its output for a bottleneck, and cell 24 both its ports, of which the input counts.
    Run {
        made: &[],
        tried: &[Reason { cell: 24, to: 2 }],
    },
    Run {
        made: &[],
        tried: &[
            Reason { cell: 24, to: 0 },
            Reason { cell: 9, to: 1 },
            Reason { cell: 24, to: 3 },
        ],
    },
];
