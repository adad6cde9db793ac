// The judgement of a plan for its request.
ghost use Rattle.std.specs.Prelude.{◌≡◌};
ghost use Rattle.judging.specs.PlanRows.{judged};

use crate::format::{base_row, unused};
use crate::rates::rates;
use requests::check::check;
use switch::plan::{Half, Plan};
use switch::request::Request;
use switch::verdict::Verdict;

// Rows 4 to 8 and 10 to 15: the first that refuses counts.
pub fn judge(request: Request, plan: Plan) -> Verdict
    ensures { result ≡ judged request plan }
{
    check(request)?;
    unused(&request, &plan, Half::First)?;
    unused(&request, &plan, Half::Second)?;
    base_row(plan.base)?;
    rates(&request, &plan)
}
