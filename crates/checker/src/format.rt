// The rows that a plan's numbers meet before its rates are looked at: 7, for its unused cells, and 8.
ghost use Rattle.std.specs.Prelude.{◌≡◌, ◌+◌, ◌*◌, ◌-◌, ◌≤◌, ◌<◌, ◌&&◌, not, get_or, position};
ghost use Rattle.switch.specs.Halves.{half_number};
ghost use Rattle.switch.specs.Rows.{row_verdict};
ghost use Rattle.switch.specs.Tables.{used_at};
ghost use Rattle.judging.specs.PlanRows.{first_word, unused_rates, unused_reasons, half_not_zero, base_row};
ghost use Rattle.judging.specs.Places.{reason_word};
ghost use Rattle.checker.specs.Found.{FirstThat};

use crate::found::refused_if;
use switch::plan::{Half, Plan};
use switch::port::{Input, used_end};
use switch::request::Request;
use switch::verdict::{Cause, Verdict, refused};

fn other<T: Copy + PartialEq>(part: &[T], none: T) -> Option<usize>
    ensures { result ≡ position (λ x. not (T.eq x none)) part.now }
{
    part.iter().position(|x| *x != none)
}

// The first entry from `first` on and before `last` that is not `none`. (Not one function with the `first_above` of `requests`:
// that one asks for a larger number, and this for another entry than none, of any type.)
fn first_other<T: Copy + PartialEq>(table: &[T; 64], first: u64, last: u64, none: T) -> Option<u64>
    requires { last ≤ 64 }
    ensures { FirstThat first last (λ c. not (T.eq (get_or table.now c none) none)) result }
{
    let part = table.get(first as usize..last as usize)?;
    let i = other(part, none)?;
    Some(first + i as u64)
}

// The first unused cell of a half of the plan whose entry is not `none`. Unused cells are the last of each input's eight.
// (A loop: of `find_map` with this closure no proof was found.)
fn first_unused<T: Copy + PartialEq>(
    request: &Request,
    half: Half,
    table: &[T; 64],
    none: T,
) -> Option<u64>
    ensures { FirstThat (32 * half_number half) (32 * half_number half + 32) (λ c. not (used_at request.now.m request.now.n c) && not (T.eq (get_or table.now c none) none)) result }
{
    let first = 4 * half.number();
    for u in first..first + 4 {
        let end = used_end(request.m, request.n, Input(u));
        if let Some(c) = first_other(table, end, 8 * u64::from(u) + 8, none) {
            return Some(c);
        }
    }
    None
}

// The word of a cell's numerator that is not 0, the low one first.
fn first_word(cell: u64, x: u64) -> u64
    requires { cell < 64 }
    ensures { result ≡ first_word cell x }
{
    let low = 128 * (1 + cell / 32) + (3 + 2 * (cell % 32));
    if x % 4_294_967_296 == 0 { low + 1 } else { low }
}

// The word that holds a cell's reason.
fn reason_word(cell: u64) -> u64
    requires { cell < 64 }
    ensures { result ≡ reason_word cell }
{
    128 * (1 + cell / 32) + (67 + cell % 32 / 4)
}

fn unused_rates(request: &Request, plan: &Plan, half: Half) -> Verdict
    ensures { result ≡ row_verdict (unused_rates request.now plan.now (half_number half)) }
{
    let found = first_unused(request, half, &plan.numerators, 0);
    let word = found.map(|c| first_word(c, plan.numerators[c as usize]) as usize);
    refused_if(Cause::NotZero, word)
}

fn unused_reasons(request: &Request, plan: &Plan, half: Half) -> Verdict
    ensures { result ≡ row_verdict (unused_reasons request.now plan.now (half_number half)) }
{
    let found = first_unused(request, half, &plan.reasons, 0);
    refused_if(Cause::NotZero, found.map(|c| reason_word(c) as usize))
}

// Row 7, for the unused cells of a half of the plan: those of block 1, or those of block 2.
pub fn unused(request: &Request, plan: &Plan, half: Half) -> Verdict
    ensures { result ≡ row_verdict (half_not_zero request.now plan.now (half_number half)) }
{
    unused_rates(request, plan, half)?;
    unused_reasons(request, plan, half)
}

// Row 8.
pub fn base_row(base: u64) -> Verdict
    ensures { result ≡ row_verdict (base_row base) }
{
    if (Plan::LEAST_BASE..=Plan::MOST_BASE).contains(&base) {
        return Verdict::Accepted;
    }
    refused(Cause::Base, 129)
}
