// The check of a request's numbers: rows 4 to 7 of the refusal table.
ghost use Rattle.std.specs.Prelude.{◌≡◌};
ghost use Rattle.switch.specs.Rows.{row_verdict};
ghost use Rattle.switch.specs.RequestRows.{ports_row, capacity_row, demand_row, not_zero_row, request_verdict};

use crate::tables::{Bound, cells_over, outside, ports_over};
use switch::request::Request;
use switch::verdict::{Cause, Verdict, refused};

const CAPACITY: Bound = Bound {
    cause: Cause::Capacity,
    used: true,
    most: Request::CAPACITY,
};

const DEMAND: Bound = Bound {
    cause: Cause::Demand,
    used: true,
    most: Request::DEMAND,
};

const ZERO: Bound = Bound {
    cause: Cause::NotZero,
    used: false,
    most: 0,
};

fn ports_row(request: &Request) -> Verdict
    ensures { result ≡ row_verdict (ports_row request.now) }
{
    if outside(request.m) {
        return refused(Cause::Ports, 1);
    }
    if outside(request.n) {
        return refused(Cause::Ports, 2);
    }
    Verdict::Accepted
}

fn capacity_row(request: &Request) -> Verdict
    ensures { result ≡ row_verdict (capacity_row request.now) }
{
    ports_over(CAPACITY, 3, request.m, &request.inputs)?;
    ports_over(CAPACITY, 11, request.n, &request.outputs)
}

fn demand_row(request: &Request) -> Verdict
    ensures { result ≡ row_verdict (demand_row request.now) }
{
    cells_over(DEMAND, request)
}

fn not_zero_row(request: &Request) -> Verdict
    ensures { result ≡ row_verdict (not_zero_row request.now) }
{
    ports_over(ZERO, 3, request.m, &request.inputs)?;
    ports_over(ZERO, 11, request.n, &request.outputs)?;
    cells_over(ZERO, request)
}

// The first row that refuses counts.
#[tactic(auto, unfolding(switch::specs::Rows::verdict_of))]
pub fn check(request: Request) -> Verdict
    ensures { result ≡ request_verdict request }
{
    ports_row(&request)?;
    capacity_row(&request)?;
    demand_row(&request)?;
    not_zero_row(&request)
}
