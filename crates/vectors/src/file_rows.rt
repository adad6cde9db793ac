// The words that are changed in the worked listing's plan file: the refusals 2 to 15, by their numbers.
use crate::changes::Change::{self, AsNext, Sealed, Unsealed};
use crate::values::OVER;
use switch::request::Request;

// The largest capacity and demand.
const MOST: u32 = Request::DEMAND;

pub const CHANGES: [&[Change]; 43] = [
    &[Sealed { word: 0, to: 1 }], // nothing changed
    // 2. A block whose check is not its own. Each of the three in a row is before the one that is already damaged.
    &[Unsealed { word: 27, to: 3 }],
    &[AsNext { word: 27, to: 3 }],
    &[Unsealed { word: 127, to: 0 }], // the check itself
    &[
        Unsealed { word: 257, to: 4 },
        Unsealed { word: 131, to: 8 },
        Unsealed { word: 27, to: 3 },
    ],
    &[AsNext { word: 128, to: 2 }], // nothing changed but the check
    // 3. Kinds.
    &[Sealed { word: 0, to: 2 }],
    &[Sealed { word: 128, to: 3 }],
    &[Sealed { word: 256, to: 2 }],
    // 4. m, then n.
    &[Sealed { word: 1, to: 9 }],
    &[Sealed { word: 1, to: 0 }],
    &[Sealed { word: 1, to: 8 }],
    &[Sealed { word: 2, to: 9 }],
    &[Sealed { word: 2, to: 0 }],
    // 6 and 5. The demand from input 1 to output 0, and output 0's capacity too; then the largest numbers that may be.
    &[Sealed { word: 27, to: OVER }, Sealed { word: 11, to: OVER }],
    &[Sealed { word: 19, to: MOST }, Sealed { word: 11, to: MOST }],
    // 7. In block 0 an unused input's capacity, an unused output's, an unused cell's demand, the first and the last spare word.
    &[Sealed { word: 5, to: 1 }],
    &[Sealed { word: 13, to: 1 }],
    &[Sealed { word: 21, to: 1 }],
    &[Sealed { word: 83, to: 1 }],
    &[Sealed { word: 126, to: 1 }],
    // 7. In the blocks of the plan, where cell 2 is the first unused one, 31 and 32 are where they meet, and cell 63 is the last:
    // numerators, the low word and the high one; reasons, which stand four to a word; and spare words.
    &[Sealed { word: 135, to: 1 }],
    &[Sealed { word: 136, to: 1 }],
    &[Sealed {
        word: 195,
        to: 65793,
    }],
    &[Sealed { word: 203, to: 1 }],
    &[Sealed { word: 259, to: 1 }],
    &[Sealed { word: 322, to: 1 }],
    &[Sealed {
        word: 330,
        to: MOST,
    }],
    &[Sealed { word: 382, to: 1 }],
    // 9 and 8. Base 4 and base 4294967298 in one block only; then 0 in both, and 4294967296 in both.
    &[Sealed { word: 257, to: 4 }],
    &[Sealed { word: 258, to: 1 }],
    &[Sealed { word: 130, to: 1 }],
    &[
        Sealed { word: 129, to: 0 },
        Sealed { word: 257, to: 0 },
        Sealed { word: 130, to: 1 },
        Sealed { word: 258, to: 1 },
    ],
    // 11, 12 and 13. The numerators of cells 0, 1, 8 and 9 begin in words 131, 133, 147 and 149. No rates that this request
    // bounds can bring an output over its capacity, so the capacity is lowered.
    &[Sealed { word: 147, to: 5 }],
    &[Sealed { word: 132, to: 1 }],
    &[Sealed { word: 131, to: 8 }],
    &[Sealed { word: 12, to: 4 }],
    // 14. Input 0 is not full with 6 and 7; with 6 and 8 it is, but 6 is not its largest.
    &[Sealed { word: 149, to: 1 }],
    &[Sealed { word: 131, to: 6 }, Sealed { word: 133, to: 8 }],
    // 10 and 15. The reasons of cells 0 to 3 are in word 195, those of cells 8 to 11 in word 197.
    &[Sealed { word: 195, to: 769 }],
    &[Sealed { word: 195, to: 513 }],
    &[Sealed { word: 197, to: 256 }],
    // All numbers of its plan times 3: the last of these rows is accepted.
    &[
        Sealed { word: 129, to: 6 },
        Sealed { word: 257, to: 6 },
        Sealed { word: 131, to: 21 },
        Sealed { word: 133, to: 21 },
        Sealed { word: 147, to: 12 },
        Sealed { word: 149, to: 6 },
    ],
];

// What is proposed in place of a damaged file.
pub const CHOICES: [&[Change]; 2] = [
    &[Sealed { word: 0, to: 1 }], // nothing changed
    &[Unsealed { word: 27, to: 3 }],
];
