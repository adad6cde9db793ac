// The rows of the refusal table that speak of bytes: 1 to 3, the spare words of 7, and 16.
ghost use Rattle.std.specs.Prelude.{◌≡◌, ◌*◌, ◌<◌, ◌≤◌, [], ◌∷◌, length};
ghost use Rattle.switch.specs.Rows.{row_verdict, verdict_of};
ghost use Rattle.switch.specs.declared.verdict.Verdict.TheVariants.{Accepted};
ghost use Rattle.formats.specs.FileRows.{length_row, check_row, kind_row, spare_row, room_row};

use blocks::check::{sealed, start_of};
use blocks::word::word;
use switch::verdict::{Cause, Verdict, refused};

#[tactic(auto, unfolding(switch::specs::Rows::row_verdict, switch::specs::Rows::first_from))]
fn length_row(file: &[u8], size: usize) -> Verdict
    ensures { result ≡ row_verdict (length_row size file.now) }
{
    if file.len() != size {
        return refused(Cause::Length, 0);
    }
    Verdict::Accepted
}

#[tactic(auto, unfolding(switch::specs::Rows::row_verdict, switch::specs::Rows::first_from))]
pub fn room_row(buffer: &[u8], size: usize) -> Verdict
    ensures value { result ≡ row_verdict (room_row size buffer.now) }
    ensures enough { result ≡ Accepted → size ≤ length buffer.now }
{
    if buffer.len() < size {
        return refused(Cause::Room, 0);
    }
    Verdict::Accepted
}

// The checks of the first `blocks` blocks.
#[tactic(auto, using(crate::proofs::Refusing::refuses_there, switch::proofs::Search::row_accepts))]
fn check_row(file: &[u8], blocks: u32) -> Verdict
    ensures { result ≡ row_verdict (check_row blocks file.now) }
{
    for b in 0..blocks {
        if !sealed(start_of(b), file, b) {
            return refused(Cause::Check, 128 * u64::from(b) + 127);
        }
    }
    Verdict::Accepted
}

// The kinds of the file's blocks. (Kinds are document 01's numbers, and a file may hold any word there: no enum.)
#[tactic(auto, using(crate::proofs::Refusing::refuses_there, switch::proofs::Search::row_accepts))]
fn kind_row(file: &[u8], kinds: &[u32]) -> Verdict
    requires { length kinds.now < 4_294_967_296 }
    ensures { result ≡ row_verdict (kind_row kinds.now file.now) }
{
    for (b, kind) in kinds.iter().enumerate() {
        let place = 128 * b as u64;
        if word(file, place) != *kind {
            return refused(Cause::Kind, place);
        }
    }
    Verdict::Accepted
}

// Rows 1 to 3 of a file that is made of blocks of these kinds.
#[tactic(auto, unfolding(switch::specs::Rows::verdict_of))]
pub fn frame_rows<const N: usize>(file: &[u8], kinds: &[u32; N]) -> Verdict
    requires { N < 4_294_967_296 }
    ensures { result ≡ verdict_of (length_row (512 * N) file.now ∷ check_row N file.now ∷ kind_row kinds.now file.now ∷ []) }
{
    length_row(file, 512 * N)?;
    check_row(file, N as u32)?;
    kind_row(file, kinds)
}

// The spare words of a block: `count` of them, from word `from` on. Not a range of words: the check of a plan file that walks one
// costs 4 in 100 more.
#[tactic(auto, using(crate::proofs::Refusing::refuses_there, switch::proofs::Search::row_accepts))]
pub fn spare_row(file: &[u8], block: u32, from: u32, count: u32) -> Verdict
    ensures { result ≡ row_verdict (spare_row block from count file.now) }
{
    for i in 0..count {
        let place = 128 * u64::from(block) + (u64::from(from) + u64::from(i));
        if 0 < word(file, place) {
            return refused(Cause::NotZero, place);
        }
    }
    Verdict::Accepted
}
