// A plan: one exact rate, a numerator over the plan's base, and one reason for each flow; and what planning answers.
ghost use Rattle.std.specs.Prelude.{◌≡◌};
ghost use Rattle.switch.specs.Values.{empty_plan};
ghost use Rattle.switch.specs.Halves.{half_number};

use crate::verdict::Verdict;

#[derive(Clone, Copy)]
pub struct Plan {
    pub base: u64,
    pub numerators: [u64; 64],
    pub reasons: [u8; 64],
}

impl Plan {
    pub const LEAST_BASE: u64 = 1;

    pub const MOST_BASE: u64 = 4_294_967_296;

    // The plan that a refusal hands back.
    pub fn empty() -> Self
        ensures { result ≡ empty_plan }
    {
        Plan {
            base: Plan::LEAST_BASE,
            numerators: [0; 64],
            reasons: [0; 64],
        }
    }
}

// The halves of a plan, as the two blocks of its file have them: inputs 0 to 3, and inputs 4 to 7.
#[derive(Clone, Copy, Debug, PartialEq, Eq)]
pub enum Half {
    First,
    Second,
}

impl Half {
    pub fn number(self) -> u32
        ensures { result ≡ half_number self }
    {
        self as u32
    }
}

// What planning gives: a verdict, and the plan, which is the empty plan if the verdict refuses. (No `Result`: document 01 promises the
// empty plan with a refusal, and `planned` says so.)
#[derive(Clone, Copy)]
pub struct Planned {
    pub verdict: Verdict,
    pub plan: Plan,
}
