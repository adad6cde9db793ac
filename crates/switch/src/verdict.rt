// A verdict: acceptance, or the refusal together with its place. A cause is a row of the refusal table.
ghost use Rattle.std.specs.Prelude.{◌≡◌, Some};
ghost use Rattle.switch.specs.Numbering.{number_of};
ghost use Rattle.switch.specs.Rows.{refusal, refused_by, or_else};
ghost use Rattle.switch.specs.Heard.{goes_on};
ghost use Rattle.switch.specs.Told.{refusal_told, verdict_told};

use std::fmt;
use std::ops::{ControlFlow, FromResidual, Try};

// A row's number in the refusal table stands beside its cause.
#[derive(Clone, Copy, Debug, PartialEq, Eq)]
pub enum Cause {
    Length = 1,
    Check = 2,
    Kind = 3,
    Ports = 4,
    Capacity = 5,
    Demand = 6,
    NotZero = 7,
    Base = 8,
    BaseDiffers = 9,
    ReasonRange = 10,
    AboveDemand = 11,
    InputOver = 12,
    OutputOver = 13,
    NoBottleneck = 14,
    WrongReason = 15,
    Room = 16,
}

impl Cause {
    // The row's number in the refusal table.
    pub fn number(self) -> u32
        ensures { result ≡ number_of self }
    {
        self as u32
    }
}

#[derive(Clone, Copy, Debug, PartialEq, Eq)]
pub struct Refusal {
    pub cause: Cause,
    pub place: u64,
}

// It has the shape of a `Result`, but document 01 fixes this form; `?` serves it all the same.
#[derive(Clone, Copy, Debug, PartialEq, Eq)]
pub enum Verdict {
    Accepted,
    Refused(Refusal),
}

// The refusal of a cause, with its place.
pub fn refused(cause: Cause, place: u64) -> Verdict
    ensures { result ≡ refusal cause place }
{
    Verdict::Refused(Refusal { cause, place })
}

impl Verdict {
    // The first refusal of the two, if there is one.
    pub fn or_else(self, next: Verdict) -> Verdict
        ensures { result ≡ or_else self next }
    {
        self?;
        next
    }
}

// `row?;` leaves a function with the row's refusal, and goes on if the row accepts.
impl Try for Verdict {
    type Output = ();

    type Residual = Refusal;

    ghost branch_gives = { goes_on };

    fn branch(self) -> ControlFlow<Refusal, ()> {
        match self {
            Verdict::Accepted => ControlFlow::Continue(()),
            Verdict::Refused(refusal) => ControlFlow::Break(refusal),
        }
    }

    fn from_output((): ()) -> Verdict {
        Verdict::Accepted
    }
}

impl FromResidual<Refusal> for Verdict {
    ghost from_residual_gives = { λ refusal verdict. verdict ≡ refused_by refusal };

    fn from_residual(reason: Refusal) -> Verdict {
        Verdict::Refused(reason)
    }
}

impl fmt::Display for Refusal {
    ghost output = { λ refusal. Some (refusal_told refusal) };

    fn fmt<W: fmt::Write>(&self, f: &mut fmt::Formatter<W>) -> fmt::Result {
        write!(f, "refused {} {}", self.cause.number(), self.place)
    }
}

impl fmt::Display for Verdict {
    ghost output = { λ verdict. Some (verdict_told verdict) };

    fn fmt<W: fmt::Write>(&self, f: &mut fmt::Formatter<W>) -> fmt::Result {
        match self {
            Verdict::Accepted => f.write_str("accepted"),
            Verdict::Refused(refusal) => write!(f, "{refusal}"),
        }
    }
}
