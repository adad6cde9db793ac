// The rows of a plan file that speak of what stands in it, and not of whether it is right: 7, from the request's spare words on,
// to 9.
ghost use Rattle.std.specs.Prelude.{◌≡◌, [], ◌∷◌};
ghost use Rattle.switch.specs.Rows.{row_verdict, verdict_of, joined};
ghost use Rattle.judging.specs.PlanRows.{half_not_zero, base_row};
ghost use Rattle.formats.specs.FileRows.{spare_row};
ghost use Rattle.formats.specs.PlanFile.{base_in, base_differs_row};

use crate::read::base_in;
use crate::rows::spare_row;
use checker::format::{base_row, unused};
use switch::plan::{Half, Plan};
use switch::request::Request;
use switch::verdict::{Cause, Verdict, refused};

// Row 7, from the request's spare words on.
#[tactic(auto, using(switch::proofs::Rows::joined_left, switch::proofs::Rows::joined_right))]
pub fn zeros_row(file: &[u8], request: &Request, plan: &Plan) -> Verdict
    ensures { result ≡ row_verdict (joined (spare_row 0 83 44 file.now) (joined (half_not_zero request.now plan.now 0) (joined (spare_row 1 75 52 file.now) (joined (half_not_zero request.now plan.now 1) (spare_row 2 75 52 file.now))))) }
{
    spare_row(file, 0, 83, 44)?;
    unused(request, plan, Half::First)?;
    spare_row(file, 1, 75, 52)?;
    unused(request, plan, Half::Second)?;
    spare_row(file, 2, 75, 52)
}

// Rows 8 and 9.
#[tactic(auto, unfolding(switch::specs::Rows::verdict_of, switch::specs::Rows::row_verdict, switch::specs::Rows::first_from))]
pub fn base_rows(file: &[u8]) -> Verdict
    ensures { result ≡ verdict_of (base_row (base_in file.now 0) ∷ base_differs_row file.now ∷ []) }
{
    let base = base_in(file, Half::First);
    base_row(base)?;
    if base_in(file, Half::Second) != base {
        return refused(Cause::BaseDiffers, 257);
    }
    Verdict::Accepted
}
