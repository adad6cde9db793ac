// How the blocks of a file are laid out, word by word, and written where there is room for them.
ghost use Rattle.std.specs.Prelude.{◌≡◌, ℕ, ◌++◌, ◌+◌, ◌*◌, ◌≤◌, length, take, drop};
ghost use Rattle.words.specs.Check.{start_of, block_of};
ghost use Rattle.switch.specs.Halves.{half_number};
ghost use Rattle.judging.specs.Places.{low_of, high_of};
ghost use Rattle.formats.specs.RequestFile.{request_word};
ghost use Rattle.formats.specs.PlanFile.{plan_word};

use blocks::check::{seal, start_of};
use blocks::word::{put, word};
use switch::entry::entry;
use switch::plan::{Half, Plan};
use switch::request::Request;

// What a block holds in its words 0 to 126. The rules below test one end after the other: from a `match` on the word's number the
// compiler makes a table of jumps, and a block costs half as much again to write.
pub trait Content {
    ghost word: { Self → ℕ → ℕ };

    fn word(&self, i: u64) -> u32
        ensures { result ≡ word self.now i };
}

impl Content for Request {
    ghost word = { request_word };

    // (Kinds are document 01's numbers, and a file may hold any word there: no enum.)
    #[tactic(auto, unfolding(formats::specs::RequestFile::request_word))]
    fn word(&self, i: u64) -> u32 {
        if i < 1 {
            1
        } else if i < 2 {
            self.m
        } else if i < 3 {
            self.n
        } else if i < 11 {
            entry(&self.inputs, i - 3, 0)
        } else if i < 19 {
            entry(&self.outputs, i - 11, 0)
        } else if i < 83 {
            entry(&self.demands, i - 19, 0)
        } else {
            0
        }
    }
}

// A half of a plan, which has a block of its own.
#[derive(Clone, Copy)]
pub struct PlanHalf<'a> {
    pub plan: &'a Plan,
    pub half: Half,
}

// The two words of a number.
fn low(x: u64) -> u32
    ensures { result ≡ low_of x }
{
    (x & 0xffff_ffff) as u32
}

fn high(x: u64) -> u32
    ensures { result ≡ high_of x }
{
    (x >> 32) as u32
}

impl Content for PlanHalf<'_> {
    ghost word = { λ h. plan_word h.plan.now (half_number h.half) };

    // Reasons are bytes, so that word k of them is four reasons.
    #[tactic(auto, unfolding(formats::specs::PlanFile::plan_word, words::specs::Words::word_at))]
    fn word(&self, i: u64) -> u32 {
        let half = u64::from(self.half.number());
        if i < 1 {
            2 + self.half.number()
        } else if i < 2 {
            low(self.plan.base)
        } else if i < 3 {
            high(self.plan.base)
        } else if i < 67 {
            let rate = entry(&self.plan.numerators, 32 * half + (i - 3) / 2, 0);
            if i % 2 == 1 { low(rate) } else { high(rate) }
        } else if i < 75 {
            word(&self.plan.reasons, 8 * half + (i - 67))
        } else {
            0
        }
    }
}

// Writes a block of a file that has room for it. (By number: what a block holds is told by number, and put writes by number.)
pub fn write_block<C: Content>(content: &C, block: u32, buffer: &mut [u8])
    requires { 512 * block + 512 ≤ length buffer.old }
    ensures { buffer.new ≡ take (512 * block) buffer.old ++ (block_of (start_of block) (C.word content.now) ++ drop (512 * (block + 1)) buffer.old) }
{
    let from = 128 * u64::from(block);
    for i in 0..127 {
        put(buffer, from + i, content.word(i));
    }
    seal(start_of(block), buffer, block);
}
