// Rows 10 to 15: reasons in range, no rate above its demand, no port above its capacity, a bottleneck for every flow below its
// demand, and the right reasons.
ghost use Rattle.std.specs.Prelude.{◌≡◌, ltb, position};
ghost use Rattle.switch.specs.Rows.{row_verdict};
ghost use Rattle.worked.specs.Worked.{range_worked, below, rates_worked};
ghost use Rattle.checker.specs.Flows.{row_of_free, row_of_reasons};
ghost use Rattle.checker.specs.Found.{FirstThat};

use crate::found::refused_if;
use crate::side::{more_row, scaled, weigh};
use shares::reason::{OUTPUT, reason_by};
use switch::plan::Plan;
use switch::port::{Input, Output, cell};
use switch::request::Request;
use switch::verdict::{Cause, Verdict, refused};

// The first cell whose reason is none: OUTPUT is the largest.
fn beyond(reasons: &[u8; 64]) -> Option<usize>
    ensures { result ≡ position (λ reason. ltb 2 reason) reasons.now }
{
    reasons.iter().position(|reason| OUTPUT < *reason)
}

// Row 10.
fn range_row(reasons: &[u8; 64]) -> Verdict
    ensures { result ≡ row_verdict (range_worked reasons.now) }
{
    refused_if(Cause::ReasonRange, beyond(reasons))
}

// A flow of numerator `x` is below its demand, and below the levels from which on its ports hold flows back.
fn below(asked: u64, entering: u64, leaving: u64, x: u64) -> bool
    ensures { result ≡ below asked entering leaving x }
{
    (x < asked) & (x < entering) & (x < leaving)
}

// The flows of a plan, with what they ask for over its base, and from which numerator on each input and each output holds a
// flow back.
#[derive(Clone, Copy)]
struct Flows<'a> {
    request: &'a Request,
    plan: &'a Plan,
    asked: &'a [u64; 64],
    entering: &'a [u64; 8],
    leaving: &'a [u64; 8],
}

impl Flows<'_> {
    // The search for row 14: the first flow that is below its demand and has no bottleneck. The walk over the outputs of the
    // walk over the inputs is left with the cell: document 01 asks for this walk, left by a label.
    fn free_cell(&self) -> Option<usize>
        ensures { FirstThat 0 64 (row_of_free self.now).offends result }
    {
        let found = 'walk: loop {
            for u in 0..self.request.m.min(8) {
                let from = self.entering[u as usize];
                for v in 0..self.request.n.min(8) {
                    let c = cell(Input(u), Output(v)) as usize;
                    if below(
                        self.asked[c],
                        from,
                        self.leaving[v as usize],
                        self.plan.numerators[c],
                    ) {
                        break 'walk Some(c);
                    }
                }
            }
            break None;
        };
        found
    }

    // Row 14.
    fn free_row(&self) -> Verdict
        ensures { result ≡ row_verdict (row_of_free self.now) }
    {
        refused_if(Cause::NoBottleneck, self.free_cell())
    }

    // Row 15. An unused cell has rate 0 of demand 0, and so its reason is 0. (Two loops, and by number, since a row's level
    // serves eight cells: one loop over the cells makes the check of a plan file 5% dearer.)
    fn reasons_row(&self) -> Verdict
        ensures { result ≡ row_verdict (row_of_reasons self.now) }
    {
        for u in 0..8 {
            let from = self.entering[u as usize];
            for v in 0..8 {
                let c = cell(Input(u), Output(v));
                let i = c as usize;
                if self.plan.reasons[i] != reason_by(self.asked[i], from, self.plan.numerators[i]) {
                    return refused(Cause::WrongReason, c);
                }
            }
        }
        Verdict::Accepted
    }
}

// The first row that refuses counts.
#[tactic(auto, unfolding(switch::specs::Rows::verdict_of))]
pub fn rates(request: &Request, plan: &Plan) -> Verdict
    ensures { result ≡ rates_worked request.now plan.now }
{
    let asked = scaled(&request.demands, plan.base);
    let inputs = weigh::<Input>(Cause::InputOver, request.n, &request.inputs, plan);
    let outputs = weigh::<Output>(Cause::OutputOver, request.m, &request.outputs, plan);
    let flows = Flows {
        request,
        plan,
        asked: &asked,
        entering: &inputs.levels,
        leaving: &outputs.levels,
    };
    range_row(&plan.reasons)?;
    more_row(Cause::AboveDemand, &asked, &plan.numerators)?;
    inputs.over?;
    outputs.over?;
    flows.free_row()?;
    flows.reasons_row()
}
