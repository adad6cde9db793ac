// The check of a plan file.
ghost use Rattle.std.specs.Prelude.{◌≡◌};
ghost use Rattle.formats.specs.RequestFile.{request_in};
ghost use Rattle.formats.specs.PlanFile.{plan_in, check_verdict};
ghost use Rattle.files.specs.Content.{content};

use crate::format::{base_rows, zeros_row};
use crate::read::{plan_in, request_in};
use crate::rows::frame_rows;
use checker::rates::rates;
use requests::check::check as check_request;
use switch::plan::Plan;
use switch::request::Request;
use switch::verdict::Verdict;

// Rows 4 to 15, of a file's blocks and of the request and the plan that were read there.
fn content_rows(file: &[u8], request: &Request, plan: &Plan) -> Verdict
    ensures { result ≡ content file.now request.now plan.now }
{
    check_request(*request)?;
    zeros_row(file, request, plan)?;
    base_rows(file)?;
    rates(request, plan)
}

// The same, of the request and the plan that the file holds. (They are read here and not in `check`, which would then clear the
// room for both before it asks for the length.)
fn read_rows(file: &[u8]) -> Verdict
    ensures { result ≡ content file.now (request_in file.now) (plan_in file.now) }
{
    content_rows(file, &request_in(file), &plan_in(file))
}

// The first row that refuses counts. The length is asked before anything is read, although any bytes could be: the compiler then
// knows that the words are there, and leaves out the test of each.
pub fn check(file: &[u8]) -> Verdict
    ensures { result ≡ check_verdict file.now }
{
    frame_rows(file, &[1, 2, 3])?;
    read_rows(file)
}
