// The tables that change as flows rise and stop.
use crate::stage::Stage;

// The stage of each flow; what is left of each limit, over the base; and the weights that rise through it. (Tables beside each
// other: definitions and lemmas speak of each as a list, and `scale` and `take` change one alone.)
#[derive(Drop)]
pub struct Tables {
    pub stages: [Stage; 64],
    pub left: [u64; 20],
    pub parts: [u64; 20],
}
