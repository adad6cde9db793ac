// The rounds: each request file is read once, and its request planned, or its plan file looked at, as often as the first word
// says.
use crate::digest::{sum_of, with};
use crate::saved::{number_of, sum_of_block, told, written};
use files::check::check;
use files::request::read_request;
use planner::plan::plan;
use switch::request::Request;

// A run with the most rounds and the most files still ends in seconds.
const MOST_ROUNDS: u16 = 1000;

// What 64 KiB hold besides the first word.
const MOST_FILES: u16 = 127;

// What is measured: the plan, the check of its file, or the sums of the file's blocks.
#[derive(Clone, Copy)]
enum Measured {
    Plan,
    Check,
    Sums,
}

impl From<u16> for Measured {
    fn from(number: u16) -> Measured {
        match number {
            1 => Measured::Check,
            2 => Measured::Sums,
            _ => Measured::Plan,
        }
    }
}

// A round makes the digest after it of the one before.
fn repeated<F: Fn(u64) -> u64>(rounds: u16, digest: u64, round: F) -> u64
    requires { F.IsAlwaysCallable round }
{
    (0..rounds).fold(digest, |digest, _| round(digest))
}

fn planned(request: Request, rounds: u16, digest: u64) -> u64 {
    repeated(rounds, digest, |digest| {
        let answer = plan(request);
        with(digest, sum_of(&answer.plan))
    })
}

fn checked(file: &[u8], rounds: u16, digest: u64) -> u64 {
    repeated(rounds, digest, |digest| {
        let verdict = check(file);
        with(digest, number_of(verdict))
    })
}

fn summed(file: &[u8], rounds: u16, digest: u64) -> u64 {
    repeated(rounds, digest, |digest| {
        (0..3).fold(digest, |digest, block| {
            let sum = sum_of_block(file, block);
            with(digest, sum)
        })
    })
}

impl Measured {
    fn measured(self, request: Request, rounds: u16, digest: u64) -> u64 {
        match self {
            Measured::Plan => planned(request, rounds, digest),
            Measured::Check => checked(told(&written(request)), rounds, digest),
            Measured::Sums => summed(told(&written(request)), rounds, digest),
        }
    }
}

// Whether the input filled the whole space.
fn filled(space: &mut [u8]) -> bool {
    let length = space.len();
    io::read_full(0, space) == length
}

// Whole files only: what is left at the end is not looked at.
pub fn all() -> u64 {
    let mut first = [0; 4];
    if !filled(&mut first) {
        return 0;
    }
    let [a, b, c, d] = first;
    let rounds = u16::from_le_bytes([a, b]).min(MOST_ROUNDS);
    let what = Measured::from(u16::from_le_bytes([c, d]));
    let mut file = [0; 512];
    let mut digest = 0;
    for _ in 0..MOST_FILES {
        if !filled(&mut file) {
            break;
        }
        let answer = read_request(&file);
        digest = what.measured(answer.request, rounds, digest);
    }
    digest
}
