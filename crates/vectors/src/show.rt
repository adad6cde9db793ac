// How what was answered is shown.
use std::fmt;
use switch::verdict::Verdict;

// What was answered of a request, and of it with its plan.
#[derive(Clone, Copy)]
pub struct Both {
    pub request: Verdict,
    pub plan: Verdict,
}

impl fmt::Display for Both {
    fn fmt<W: fmt::Write>(&self, f: &mut fmt::Formatter<W>) -> fmt::Result {
        write!(f, "request {}, plan {}", self.request, self.plan)
    }
}

// Whether the changes before a change stay.
pub fn as_well(stay: bool) -> &'static str {
    if stay { " as well" } else { "" }
}
