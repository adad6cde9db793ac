// What listing answers.
use switch::verdict::Verdict;

// Whether there was room for the text, and how many bytes it takes. (No `Result`: `listed` promises the length 0 with a refusal, and C
// is handed no more than the length.)
#[derive(Clone, Copy)]
pub struct Listed {
    pub verdict: Verdict,
    pub length: u32,
}

impl Listed {
    // The longest text: a first line of 25 bytes, 64 lines of 33 bytes, and a last line of 7.
    pub const LONGEST: usize = 2144;
}
