// Plan files: a request's plan file is written once, and then checked, or only its blocks summed, in every round.
use blocks::check::{check, start_of};
use blocks::word::word;
use files::plan::write_plan;
use switch::request::Request;
use switch::verdict::Verdict;

// A refused request leaves zeros in the file, which is then refused too.
pub fn written(request: Request) -> [u8; 1536] {
    let mut file = [0; 1536];
    write_plan(request, &mut file);
    file
}

// As much of the file as it tells itself, by the kind of its last block: so the compiler knows as little of its length as of that
// of a file that was read.
pub fn told(file: &[u8; 1536]) -> &[u8] {
    let length = 512 * word(file, 256) as usize;
    &file[..length.min(file.len())]
}

// An accepted file counts as 0: if all are, the digest is 0.
pub fn number_of(verdict: Verdict) -> u64 {
    match verdict {
        Verdict::Accepted => 0,
        Verdict::Refused(refusal) => u64::from(refusal.cause.number()),
    }
}

// The running sum that a block's check is held against.
pub fn sum_of_block(file: &[u8], block: u32) -> u64 {
    u64::from(check(start_of(block), file, block))
}
