// What a program in C calls. A row of bytes comes as a pointer and a length; nothing is asked of the bytes.
ghost use Rattle.std.specs.Prelude.{◌≡◌};
ghost use Rattle.formats.specs.PlanFile.{check_verdict};
ghost use Rattle.formats.specs.RequestFile.{read_verdict};
ghost use Rattle.texts.specs.Listing.{listed, listed_in};
ghost use Rattle.codes.specs.Code.{code_of, plan_verdict, plan_laid, choice_of};

use crate::code::code;
use files::check::check;
use files::plan::write_plan;
use files::request::read_request;
use listing::list::list;
use switch::verdict::Verdict;

// The verdict on a request file.
#[unsafe(no_mangle)]
pub extern "C" fn rate_plan_read(request: &[u8]) -> u64
    ensures { result ≡ code_of (read_verdict request.now) }
{
    code(read_request(request).verdict)
}

// Reads a request file, works its plan out and writes the plan file.
#[unsafe(no_mangle)]
pub extern "C" fn rate_plan_write(request: &[u8], plan: &mut [u8]) -> u64
    ensures value { result ≡ code_of (plan_verdict request.now plan.old) }
    ensures plan_after { plan.new ≡ plan_laid request.now plan.old }
{
    let read = read_request(request);
    match read.verdict {
        Verdict::Accepted => code(write_plan(read.request, plan)),
        Verdict::Refused(_) => code(read.verdict),
    }
}

// The verdict on a plan file.
#[unsafe(no_mangle)]
pub extern "C" fn rate_plan_check(plan: &[u8]) -> u64
    ensures { result ≡ code_of (check_verdict plan.now) }
{
    code(check(plan))
}

// Which of the two files is to be loaded: 1 for the proposed one, 2 for the running one, 0 for neither. A pointer into one of
// them would say no more, since the plan is bytes 512 to 1,535 of either. (Numbers and no enum: it is what C is handed. Asked
// here and not of files::choose: that hands back bytes, and this a number; both ask check, in the same order.)
#[unsafe(no_mangle)]
pub extern "C" fn rate_plan_choose(proposed: &[u8], running: &[u8]) -> u64
    ensures { result ≡ choice_of proposed.now running.now }
{
    if check(proposed) == Verdict::Accepted {
        return 1;
    }
    if check(running) == Verdict::Accepted {
        return 2;
    }
    0
}

// Lists the plan of a request file, or the refusal that reading it gives: how many bytes were written.
#[unsafe(no_mangle)]
pub extern "C" fn rate_plan_list(request: &[u8], text: &mut [u8]) -> u64
    ensures value { result ≡ (listed request.now text.old).length }
    ensures text_after { text.new ≡ listed_in request.now text.old }
{
    u64::from(list(request, text).length)
}
