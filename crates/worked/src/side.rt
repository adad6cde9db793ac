// What is known of all ports of a side.
use switch::verdict::Verdict;

// What rows 12 to 15 ask of a side: whether one of its ports carries too much, and from which numerator on each holds a flow
// back. (No `Result`: the definition `weighed` says both of every side, refused or not.)
#[derive(Clone, Copy)]
pub struct Weighed {
    pub over: Verdict,
    pub levels: [u64; 8],
}
