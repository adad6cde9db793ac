// The library for programs in C: include/rate_plan.h declares its calls. Each hands on to the call of the same name in `export`,
// which says the same of its answer; a crate is a library for Rattle or one for C, and not both.
#![tactic(auto)]

ghost use Rattle.std.specs.Prelude.{◌≡◌};
ghost use Rattle.formats.specs.PlanFile.{check_verdict};
ghost use Rattle.formats.specs.RequestFile.{read_verdict};
ghost use Rattle.texts.specs.Listing.{listed, listed_in};
ghost use Rattle.codes.specs.Code.{code_of, plan_verdict, plan_laid, choice_of};

use export::calls;

// The verdict on a request file.
#[unsafe(no_mangle)]
pub extern "C" fn rate_plan_read(request: &[u8]) -> u64
    ensures { result ≡ code_of (read_verdict request.now) }
{
    calls::rate_plan_read(request)
}

// Reads a request file, works its plan out and writes the plan file.
#[unsafe(no_mangle)]
pub extern "C" fn rate_plan_write(request: &[u8], plan: &mut [u8]) -> u64
    ensures value { result ≡ code_of (plan_verdict request.now plan.old) }
    ensures plan_after { plan.new ≡ plan_laid request.now plan.old }
{
    calls::rate_plan_write(request, plan)
}

// The verdict on a plan file.
#[unsafe(no_mangle)]
pub extern "C" fn rate_plan_check(plan: &[u8]) -> u64
    ensures { result ≡ code_of (check_verdict plan.now) }
{
    calls::rate_plan_check(plan)
}

// Which of the two files is to be loaded: 1 for the proposed one, 2 for the running one, 0 for neither.
#[unsafe(no_mangle)]
pub extern "C" fn rate_plan_choose(proposed: &[u8], running: &[u8]) -> u64
    ensures { result ≡ choice_of proposed.now running.now }
{
    calls::rate_plan_choose(proposed, running)
}

// Lists the plan of a request file, or the refusal that reading it gives: how many bytes were written.
#[unsafe(no_mangle)]
pub extern "C" fn rate_plan_list(request: &[u8], text: &mut [u8]) -> u64
    ensures value { result ≡ (listed request.now text.old).length }
    ensures text_after { text.new ≡ listed_in request.now text.old }
{
    calls::rate_plan_list(request, text)
}
