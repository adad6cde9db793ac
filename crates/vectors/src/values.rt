// A request and its plan as values with numbers changed, run by run of a table.
use crate::show::{Both, as_well};
use checker::judge::judge;
use planner::plan::plan as planned;
use requests::check::check;
use std::fmt;
use switch::plan::Plan;
use switch::request::Request;

// More than any capacity or demand may be.
pub const OVER: u32 = Request::DEMAND + 1;

// One number, and what it is changed to.
#[derive(Clone, Copy)]
pub enum Change {
    M { to: u32 },
    N { to: u32 },
    Input { port: u8, to: u32 },
    Output { port: u8, to: u32 },
    Demand { cell: u8, to: u32 },
    Numerator { cell: u8, to: u64 },
    Reason { cell: u8, to: u8 },
    // With the number of the drawn plan that it is for.
    Base { plan: u8, to: u64 },
}

// The numbers of a request go by the words that they have in its file, and refusals name them so.
impl fmt::Display for Change {
    fn fmt<W: fmt::Write>(&self, f: &mut fmt::Formatter<W>) -> fmt::Result {
        match *self {
            Change::M { to } => write!(f, "file word 1 = {to}"),
            Change::N { to } => write!(f, "file word 2 = {to}"),
            Change::Input { port, to } => write!(f, "file word {} = {to}", 3 + u32::from(port)),
            Change::Output { port, to } => write!(f, "file word {} = {to}", 11 + u32::from(port)),
            Change::Demand { cell, to } => write!(f, "file word {} = {to}", 19 + u32::from(cell)),
            Change::Numerator { cell, to } => write!(f, "numerator {cell} = {to}"),
            Change::Reason { cell, to } => write!(f, "reason of {cell} = {to}"),
            Change::Base { plan, to } => write!(f, "base for P{plan} = {to}"),
        }
    }
}

// Changes one on top of another, beginning with what the table begins with. The first are only made, and after each of the
// others the request and the plan are judged.
pub struct Run {
    pub made: &'static [Change],
    pub tried: &'static [Change],
}

#[derive(Clone, Copy)]
pub struct Offer {
    pub request: Request,
    pub plan: Plan,
}

// A port or a cell that is none changes nothing.
fn put<T: Copy>(table: &mut [T], at: u8, to: T) {
    if let Some(place) = table.get_mut(usize::from(at)) {
        *place = to;
    }
}

impl Offer {
    fn with(mut self, change: Change) -> Offer {
        match change {
            Change::M { to } => self.request.m = to,
            Change::N { to } => self.request.n = to,
            Change::Input { port, to } => put(&mut self.request.inputs, port, to),
            Change::Output { port, to } => put(&mut self.request.outputs, port, to),
            Change::Demand { cell, to } => put(&mut self.request.demands, cell, to),
            Change::Numerator { cell, to } => put(&mut self.plan.numerators, cell, to),
            Change::Reason { cell, to } => put(&mut self.plan.reasons, cell, to),
            Change::Base { plan: _, to } => self.plan.base = to,
        }
        self
    }

    fn judged(self) -> Both {
        Both {
            request: check(self.request),
            plan: judge(self.request, self.plan),
        }
    }
}

impl Run {
    fn follow(&self, out: &mut impl fmt::Write, start: Offer) -> Result<Offer, fmt::Error> {
        let mut offer = self
            .made
            .iter()
            .fold(start, |offer, change| offer.with(*change));
        let mut stay = !self.made.is_empty();
        for change in self.tried {
            offer = offer.with(*change);
            writeln!(out, "{change}{}: {}", as_well(stay), offer.judged())?;
            stay = true;
        }
        Ok(offer)
    }
}

// Begins with the plan that is worked out, and hands back what the last run left.
pub fn all(
    out: &mut impl fmt::Write,
    request: Request,
    table: &[Run],
) -> Result<Offer, fmt::Error> {
    let answer = planned(request);
    let start = Offer {
        request,
        plan: answer.plan,
    };
    let mut last = start;
    for run in table {
        last = run.follow(out, start)?;
    }
    Ok(last)
}
