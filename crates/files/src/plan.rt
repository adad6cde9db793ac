// Plan files: a request and its plan saved in three blocks of 512 bytes.
ghost use Rattle.std.specs.Prelude.{◌≡◌, ◌+◌, ◌*◌, ◌++◌, ◌≤◌, length, take, drop};
ghost use Rattle.switch.specs.Halves.{half_number};
ghost use Rattle.formats.specs.PlanFile.{plan_block, plan_file, plan_written};
ghost use Rattle.formats.specs.Writing.{write_verdict};

use crate::layout::{PlanHalf, write_block};
use crate::rows::room_row;
use planner::plan::plan;
use switch::plan::{Half, Plan, Planned};
use switch::request::Request;
use switch::verdict::Verdict;

// Writes the block of a half of the plan, for which there is room.
fn write_half(plan: &Plan, half: Half, buffer: &mut [u8])
    requires { 1536 ≤ length buffer.old }
    ensures { buffer.new ≡ take (512 * (1 + half_number half)) buffer.old ++ (plan_block plan.now (half_number half) ++ drop (512 * (2 + half_number half)) buffer.old) }
{
    write_block(&PlanHalf { plan, half }, 1 + half.number(), buffer);
}

// Writes the three blocks, for which there is room.
fn write_blocks(request: &Request, plan: &Plan, buffer: &mut [u8])
    requires { 1536 ≤ length buffer.old }
    ensures { buffer.new ≡ plan_file request.now plan.now ++ drop 1536 buffer.old }
{
    write_block(request, 0, buffer);
    write_half(plan, Half::First, buffer);
    write_half(plan, Half::Second, buffer);
}

// Works a request's plan out and writes both into the first 1,536 bytes: rows 4 to 7, then 16. Nothing is written before all
// of them accept.
#[tactic(auto, using(switch::proofs::Answer::plan_within, switch::proofs::Within::within_of_accepted), unfolding(switch::specs::Rows::verdict_of))]
pub fn write_plan(request: Request, buffer: &mut [u8]) -> Verdict
    ensures value { result ≡ write_verdict 1536 request buffer.old }
    ensures buffer_after { buffer.new ≡ plan_written request buffer.old }
{
    let Planned { verdict, plan } = plan(request);
    verdict?;
    room_row(buffer, 1536)?;
    write_blocks(&request, &plan, buffer);
    Verdict::Accepted
}
