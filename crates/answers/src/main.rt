// Answers questions about files: a judge from outside asks for thousands of them in one run. tests/judge/PROTOCOL.md says how a
// question is put and what the answer looks like.
#![tactic(auto)]

mod question;

// A program has to end, so there is a most of what is answered in one run.
const MOST: u32 = 1_000_000;

fn main() {
    for _ in 0..MOST {
        if question::answer_next().is_none() {
            break;
        }
    }
}
