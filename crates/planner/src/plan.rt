// The planner: a request's plan.
ghost use Rattle.std.specs.Prelude.{◌≡◌};
ghost use Rattle.laws.specs.Lists.{list};
ghost use Rattle.switch.specs.Within.{Within};
ghost use Rattle.switch.specs.Planned.{capacity_of, plan_of};
ghost use Rattle.switch.specs.Answer.{planned, Promised};

use crate::fill::fill;
use crate::flows::Flows;
use requests::check::check;
use shares::divisor::reduce;
use shares::reason::reasons;
use switch::entry::entry;
use switch::plan::{Plan, Planned};
use switch::request::Request;
use switch::verdict::Verdict;

// The capacity of a port by the number of its limit.
fn capacity(request: &Request, limit: u64) -> u64
    ensures { result ≡ capacity_of request.now limit }
{
    if limit < 8 {
        u64::from(entry(&request.inputs, limit, 0))
    } else {
        u64::from(entry(&request.outputs, limit - 8, 0))
    }
}

// The capacities of the limits. The last four are those of cards, which a request does not have.
fn capacities(request: &Request) -> [u64; 20]
    ensures { result ≡ list 20 (capacity_of request.now) }
{
    std::array::from_fn(|limit| capacity(request, limit as u64))
}

// The plan of a request within the limits: all ports as limits, no minima, and equal weights.
fn worked_out(request: &Request) -> Plan
    requires { Within request.now }
    ensures { result ≡ plan_of request.now }
{
    let minima = [0; 64];
    let weights = [1; 64];
    let flows = Flows {
        cards: false,
        heaviest: 1,
        demands: &request.demands,
        minima: &minima,
        weights: &weights,
    };
    let mut numerators = [0; 64];
    let filled = fill(&flows, capacities(request), &mut numerators);
    let base = reduce(filled, &mut numerators);
    let (m, n) = (request.m, request.n);
    let reasons = reasons(m, n, &request.inputs, &request.demands, base, &numerators);
    Plan {
        base,
        numerators,
        reasons,
    }
}

pub fn plan(request: Request) -> Planned
    ensures value { result ≡ planned request }
    ensures promised { Promised request result }
{
    let verdict = check(request);
    match verdict {
        Verdict::Accepted => Planned {
            verdict,
            plan: worked_out(&request),
        },
        Verdict::Refused(_) => Planned {
            verdict,
            plan: Plan::empty(),
        },
    }
}
