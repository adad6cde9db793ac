// The triangle, which is the pattern of the report's figure 1, and the plans that are drawn for it.
use crate::values::Change::{Base, Demand, Input, M, N, Numerator, Output, Reason};
use crate::values::{OVER, Run};

// Numbers of the worked listing changed, until it is the triangle: four inputs and outputs, every capacity 1, and demand 1 where
// the output's number is at most the input's.
pub const LISTING: [Run; 7] = [
    Run {
        made: &[],
        tried: &[
            N { to: 2 }, // nothing changed
        ],
    },
    Run {
        made: &[],
        tried: &[M { to: 9 }],
    },
    Run {
        made: &[],
        tried: &[M { to: 0 }],
    },
    Run {
        made: &[],
        tried: &[M { to: 8 }, N { to: 9 }],
    },
    // The demand from input 1 to output 0, and output 0's capacity too; then an unused input's capacity.
    Run {
        made: &[],
        tried: &[Demand { cell: 8, to: OVER }, Output { port: 0, to: OVER }],
    },
    Run {
        made: &[],
        tried: &[Input { port: 2, to: 1 }],
    },
    // The triangle, and no rates at all.
    Run {
        made: &[
            M { to: 4 },
            N { to: 4 },
            Input { port: 0, to: 1 },
            Input { port: 1, to: 1 },
            Input { port: 2, to: 1 },
            Input { port: 3, to: 1 },
            Output { port: 0, to: 1 },
            Output { port: 1, to: 1 },
            Output { port: 2, to: 1 },
            Output { port: 3, to: 1 },
            Demand { cell: 0, to: 1 },
            Demand { cell: 1, to: 0 },
            Demand { cell: 8, to: 1 },
            Demand { cell: 9, to: 1 },
            Demand { cell: 16, to: 1 },
            Demand { cell: 17, to: 1 },
            Demand { cell: 18, to: 1 },
            Demand { cell: 24, to: 1 },
            Demand { cell: 25, to: 1 },
            Demand { cell: 26, to: 1 },
            Demand { cell: 27, to: 1 },
            Numerator { cell: 0, to: 0 },
            Numerator { cell: 1, to: 0 },
            Numerator { cell: 8, to: 0 },
            Numerator { cell: 9, to: 0 },
            Base { plan: 0, to: 1 },
            Reason { cell: 0, to: 0 },
        ],
        tried: &[Reason { cell: 1, to: 0 }],
    },
];

// The plans. In each the three flows that meet neither output 0 nor input 3 have the larger rate, and the others the smaller.
pub const PLANS: [Run; 5] = [
    Run {
        made: &[],
        tried: &[
            Base { plan: 1, to: 8 }, // nothing changed: as planned
        ],
    },
    // P1 as it is drawn, each of its numbers.
    Run {
        made: &[
            Numerator { cell: 0, to: 2 },
            Numerator { cell: 8, to: 2 },
            Numerator { cell: 9, to: 3 },
            Numerator { cell: 16, to: 2 },
            Numerator { cell: 17, to: 3 },
            Numerator { cell: 18, to: 3 },
            Numerator { cell: 24, to: 2 },
            Numerator { cell: 25, to: 2 },
            Numerator { cell: 26, to: 2 },
            Numerator { cell: 27, to: 2 },
            Reason { cell: 0, to: 2 },
            Reason { cell: 8, to: 2 },
            Reason { cell: 9, to: 2 },
            Reason { cell: 16, to: 2 },
            Reason { cell: 17, to: 1 },
            Reason { cell: 18, to: 1 },
            Reason { cell: 24, to: 1 },
            Reason { cell: 25, to: 1 },
            Reason { cell: 26, to: 1 },
            Reason { cell: 27, to: 1 },
        ],
        tried: &[Base { plan: 1, to: 8 }],
    },
    // P9, all numbers doubled.
    Run {
        made: &[
            Numerator { cell: 0, to: 4 },
            Numerator { cell: 8, to: 4 },
            Numerator { cell: 9, to: 6 },
            Numerator { cell: 16, to: 4 },
            Numerator { cell: 17, to: 6 },
            Numerator { cell: 18, to: 6 },
            Numerator { cell: 24, to: 4 },
            Numerator { cell: 25, to: 4 },
            Numerator { cell: 26, to: 4 },
            Numerator { cell: 27, to: 4 },
        ],
        tried: &[Base { plan: 9, to: 16 }],
    },
    // P10, rates 3/12 and 4/12.
    Run {
        made: &[
            Numerator { cell: 0, to: 3 },
            Numerator { cell: 8, to: 3 },
            Numerator { cell: 9, to: 4 },
            Numerator { cell: 16, to: 3 },
            Numerator { cell: 17, to: 4 },
            Numerator { cell: 18, to: 4 },
            Numerator { cell: 24, to: 3 },
            Numerator { cell: 25, to: 3 },
            Numerator { cell: 26, to: 3 },
            Numerator { cell: 27, to: 3 },
        ],
        tried: &[Base { plan: 10, to: 12 }],
    },
    // P11, rows and columns exchanged: what is off the diagonal.
    Run {
        made: &[
            Numerator { cell: 1, to: 2 },
            Numerator { cell: 2, to: 2 },
            Numerator { cell: 3, to: 2 },
            Numerator { cell: 8, to: 0 },
            Numerator { cell: 10, to: 3 },
            Numerator { cell: 11, to: 2 },
            Numerator { cell: 16, to: 0 },
            Numerator { cell: 17, to: 0 },
            Numerator { cell: 19, to: 2 },
            Numerator { cell: 24, to: 0 },
            Numerator { cell: 25, to: 0 },
            Numerator { cell: 26, to: 0 },
            Reason { cell: 1, to: 2 },
            Reason { cell: 2, to: 2 },
            Reason { cell: 3, to: 1 },
            Reason { cell: 8, to: 0 },
            Reason { cell: 10, to: 1 },
            Reason { cell: 11, to: 1 },
            Reason { cell: 16, to: 0 },
            Reason { cell: 17, to: 0 },
            Reason { cell: 19, to: 1 },
            Reason { cell: 24, to: 0 },
            Reason { cell: 25, to: 0 },
            Reason { cell: 26, to: 0 },
        ],
        tried: &[Base { plan: 11, to: 8 }],
    },
];
