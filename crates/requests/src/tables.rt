// Walks over a request's tables: each looks for the first number above a limit that only used, or only unused, ports or
// cells have. They serve rows 5 to 7 of the refusal table.
ghost use Rattle.std.specs.Prelude.{◌≡◌, cond, ltb, position};
ghost use Rattle.switch.specs.Rows.{row_verdict};
ghost use Rattle.switch.specs.RequestRows.{outside};
ghost use Rattle.switch.specs.Tables.{FoundAbove, ports_over, cells_over};

use switch::port::{Input, used_end};
use switch::request::Request;
use switch::verdict::{Cause, Verdict, refused};

// What a row asks of a table's numbers: none of those that are used, or of those that are not, may be more than `most`.
#[derive(Clone, Copy)]
pub struct Bound {
    pub cause: Cause,
    pub used: bool,
    pub most: u32,
}

// A number of ports outside the limits.
pub fn outside(count: u32) -> bool
    ensures { result ≡ outside count }
{
    !(1..=Request::PORTS).contains(&count)
}

fn above(most: u32, part: &[u32]) -> Option<usize>
    ensures { result ≡ position (λ x. ltb most x) part.now }
{
    part.iter().position(|x| most < *x)
}

// The first of the entries from `first` on and before `last` that is more than `most`. Past its end a table counts as 0, which
// is never more. (Not one function with the checker's `first_other`: that one asks for another entry than none, of any type, and
// this for a larger number.)
fn first_above(most: u32, first: u64, last: u64, table: &[u32]) -> Option<u64>
    ensures { FoundAbove most first last table.now result }
{
    let end = last.min(table.len() as u64);
    let part = table.get(first as usize..end as usize)?;
    let i = above(most, part)?;
    Some(first + i as u64)
}

// The same for a stretch of a table in which the entries before `end` are the used ones: only those are looked at of which
// the row speaks. (The three ends of a stretch and its table go together nowhere else.)
fn first_over(bound: Bound, first: u64, end: u64, last: u64, table: &[u32]) -> Option<u64>
    ensures { FoundAbove bound.most (cond bound.used first end) (cond bound.used end last) table.now result }
{
    if bound.used {
        first_above(bound.most, first, end, table)
    } else {
        first_above(bound.most, end, last, table)
    }
}

// One side's ports, in words from `from` on; the first `count` are used.
pub fn ports_over(bound: Bound, from: u32, count: u32, table: &[u32; 8]) -> Verdict
    ensures { result ≡ row_verdict (ports_over bound.cause from bound.used count bound.most table.now) }
{
    match first_over(bound, 0, u64::from(count.min(8)), 8, table) {
        Some(i) => refused(bound.cause, u64::from(from) + i),
        None => Verdict::Accepted,
    }
}

// The cells, in words from 19 on, input by input. (A loop: of `find_map` with this closure no proof was found.)
pub fn cells_over(bound: Bound, request: &Request) -> Verdict
    ensures { result ≡ row_verdict (cells_over bound.cause 19 bound.used request.now.m request.now.n bound.most request.now.demands) }
{
    for u in 0..8 {
        let first = 8 * u64::from(u);
        let end = used_end(request.m, request.n, Input(u));
        if let Some(c) = first_over(bound, first, end, first + 8, &request.demands) {
            return refused(bound.cause, 19 + c);
        }
    }
    Verdict::Accepted
}
