// What the blocks of a file hold, read from any bytes: past their end there is 0 to read.
ghost use Rattle.std.specs.Prelude.{◌≡◌, ℕ, ◌+◌, ◌/◌, ◌%◌, ◌^◌, ◌<◌, slice_index_or};
ghost use Rattle.laws.specs.Lists.{list};
ghost use Rattle.words.specs.Words.{word_at};
ghost use Rattle.switch.specs.Halves.{half_number};
ghost use Rattle.formats.specs.RequestFile.{request_in};
ghost use Rattle.formats.specs.PlanFile.{wide, base_in, plan_in};

use blocks::word::word;
use std::array;
use switch::entry::entry;
use switch::plan::{Half, Plan};
use switch::request::Request;

// A table of words, from `from` on.
fn table<const N: usize>(file: &[u8], from: u64) -> [u32; N]
    requires { from + N < 2 ^ 64 }
    ensures { result ≡ list N (λ i. word_at file.now (from + i)) }
{
    array::from_fn(|i| word(file, from + i as u64))
}

pub fn request_in(file: &[u8]) -> Request
    ensures { result ≡ request_in file.now }
{
    Request {
        m: word(file, 1),
        n: word(file, 2),
        inputs: table(file, 3),
        outputs: table(file, 11),
        demands: table(file, 19),
    }
}

// The number that word `i` and the next make, the low one first.
fn wide(file: &[u8], i: u64) -> u64
    requires { i + 1 < 2 ^ 64 }
    ensures { result ≡ wide (word_at file.now i) (word_at file.now (i + 1)) }
{
    u64::from(word(file, i)) + 4_294_967_296 * u64::from(word(file, i + 1))
}

// The base in the block of a half of the plan.
pub fn base_in(file: &[u8], half: Half) -> u64
    ensures { result ≡ base_in file.now (half_number half) }
{
    wide(file, 128 * (1 + u64::from(half.number())) + 1)
}

// What a plan says of each cell: of a half's 32, `at` tells each by its place among them. (Half by half: tried with `from_fn`
// and `cell / 32`, a division for every cell keeps the compiler from reading many words at once, and a plan's reading takes
// 1,243 instructions against 160.)
fn cells<T: Copy, F: Fn(u64, u64) -> T>(none: T, at: F) -> [T; 64]
    requires { (half i : ℕ) → half < 2 → i < 32 → F.pre at half i }
    ensures { (c : ℕ) → c < 64 → F.post at (c / 32) (c % 32) (slice_index_or result c none) }
{
    let mut table = [none; 64];
    for half in 0..2 {
        for i in 0..32 {
            table[(32 * half + i) as usize] = at(half, i);
        }
    }
    table
}

pub fn plan_in(file: &[u8]) -> Plan
    ensures { result ≡ plan_in file.now }
{
    Plan {
        base: base_in(file, Half::First),
        numerators: cells(0, |half, i| wide(file, 128 * (1 + half) + (3 + 2 * i))),
        reasons: cells(0, |half, i| entry(file, 512 * (1 + half) + (268 + i), 0)),
    }
}
