// The reasons of a plan's cells.
ghost use Rattle.std.specs.Prelude.{◌≡◌, ◌*◌, ◌<◌};
ghost use Rattle.worked.specs.Overwritten.{overwritten};
ghost use Rattle.worked.specs.Port.{input_port};
ghost use Rattle.worked.specs.Reason.{holds, reason_from, reason_in, reasons_at};
ghost use Rattle.worked.specs.Saturated.{ports};
ghost use Rattle.worked.specs.Worked.{level_of, reason_by};

use crate::arithmetic::times;
use crate::port::input_port;
use switch::entry::entry;
use switch::port::{Input, Output, cell};
use worked::port::Port;

// Reasons are these numbers and no enum: the format of a plan's file fixes them, and a file may hold any byte in their place.
// The flow has its demand.
pub const MET: u8 = 0;

// Its input holds it back.
pub const INPUT: u8 = 1;

// Its input does not, so that its output does.
pub const OUTPUT: u8 = 2;

// The port is a bottleneck of a flow that has `x` over `base`. (Promised for any numbers: no `&Request`.)
pub fn holds(port: Port, capacity: u32, demand: u32, base: u64, x: u64) -> bool
    ensures { result ≡ holds port capacity demand base x }
{
    (x < times(demand, base)) & (port.sum == times(capacity, base)) & (port.most <= x)
}

// From which numerator on a port holds a flow back, if it is full with `full`: a port that is not full holds back none, and no
// flow below its demand has the largest number of all. (No `Option`: `level_of`, which keeps its meaning, answers a number, and
// one test holds a flow against it.)
pub fn level(full: u64, port: Port) -> u64
    ensures { result ≡ level_of full port.sum port.most }
{
    let Port { sum, most } = port;
    if sum == full { most } else { u64::MAX }
}

// The reason of a flow that asks for `asked`, by the level of its input. (One test of both, as `(x < asked) & (entering <= x)`,
// makes the check of a plan file 5% dearer.)
pub fn reason_by(asked: u64, entering: u64, x: u64) -> u8
    ensures { result ≡ reason_by asked entering x }
{
    if x == asked {
        return MET;
    }
    if asked < x {
        return OUTPUT;
    }
    if entering <= x { INPUT } else { OUTPUT }
}

// The reason of a flow, by its input. (Promised for any numbers: no `&Request`.)
pub fn reason(input: Port, capacity: u32, demand: u32, base: u64, x: u64) -> u8
    ensures { result ≡ reason_from input capacity demand base x }
{
    let entering = level(times(capacity, base), input);
    reason_by(times(demand, base), entering, x)
}

// Fills the used cells of input `u`. The tables may be of any length, as they may be in `reasons`.
fn fill_row(
    n: u32,
    capacity: u32,
    demands: &[u32],
    base: u64,
    numerators: &[u64],
    u: Input,
    table: &mut [u8; 64],
)
    requires { u.0 < 8 }
    ensures { table.new ≡ overwritten (8 * u.0) (ports n) (reason_in (input_port n numerators.now u) capacity demands.now base numerators.now) table.old }
{
    let port = input_port(n, numerators, u);
    let entering = level(times(capacity, base), port);
    // By number: tables of any length are asked for the cell, and the used ones alone.
    for v in 0..n.min(8) {
        let c = cell(u, Output(v));
        let asked = times(entry(demands, c, 0), base);
        table[c as usize] = reason_by(asked, entering, entry(numerators, c, 0));
    }
}

// Only used cells are walked over: the others keep the 0 that the table starts with, which is their reason. (No `&Request`: what is
// promised of this call is an answer for tables of any length.)
pub fn reasons(
    m: u32,
    n: u32,
    inputs: &[u32],
    demands: &[u32],
    base: u64,
    numerators: &[u64],
) -> [u8; 64]
    ensures { result ≡ reasons_at m n inputs.now demands.now base numerators.now }
{
    let mut table = [MET; 64];
    for u in 0..m.min(8) {
        let capacity = entry(inputs, u64::from(u), 0);
        fill_row(n, capacity, demands, base, numerators, Input(u), &mut table);
    }
    table
}
