// What a plan gives each port of a side, held against what the ports have. No sum can pass 64 bits, whatever the numerators
// are: sums and products stop at 2^64 - 1, and with a base of at most 2^32 a capacity or a demand times the base stays below
// it, so that a sum that was stopped is more than any of them.
ghost use Rattle.std.specs.Prelude.{◌≡◌, ◌*◌, ◌<◌, ℕ, ltb, position, length, get_or};
ghost use Rattle.std.specs.List.{zip};
ghost use Rattle.switch.specs.Rows.{row_verdict};
ghost use Rattle.worked.specs.Port.{no_port, port_of};
ghost use Rattle.worked.specs.Saturated.{capped};
ghost use Rattle.worked.specs.Worked.{scaled, sums, levels, more_row, weighed};

use crate::found::refused_if;
use shares::arithmetic::times;
use shares::port::port;
use shares::reason::level;
use std::array;
use switch::plan::Plan;
use switch::port::End;
use switch::verdict::{Cause, Verdict};
use worked::port::Port;
use worked::side::Weighed;

// A table of capacities or demands, over the base.
pub fn scaled<const N: usize>(table: &[u32; N], base: u64) -> [u64; N]
    ensures { result ≡ scaled N base table.now }
{
    array::from_fn(
        |i|
            requires { i < N }
            ensures { result ≡ capped (get_or table.entry.now i 0 * base) }
        { times(table[i], base) },
    )
}

// The ports of a side.
fn ports<P: End>(count: u32, numerators: &[u64; 64]) -> [Port; 8]
    ensures { (k : ℕ) → k < 8 → get_or result k no_port ≡ port_of count (λ i. get_or numerators.now (P.flow (P.numbered k) i) 0) }
{
    array::from_fn(
        |k|
            requires { k < 8 }
            ensures { result ≡ port_of count (λ i. get_or numerators.entry.now (P.flow (P.numbered k) i) 0) }
        { port(count, numerators, P::numbered(k as u32)) },
    )
}

// From which numerator on each port holds a flow back.
fn levels(full: &[u64; 8], ports: &[Port; 8]) -> [u64; 8]
    ensures { result ≡ levels full.now (λ k. get_or ports.now k no_port) }
{
    array::from_fn(|k| level(full[k], ports[k]))
}

fn more<const N: usize>(most: &[u64; N], table: &[u64; N]) -> Option<usize>
    ensures { result ≡ position (λ pair. ltb pair.1 pair.0) (zip table.now most.now) }
{
    table.iter().zip(most).position(|(x, most)| most < x)
}

// The first number of a table that is more than it may be.
pub fn more_row<const N: usize>(cause: Cause, most: &[u64; N], table: &[u64; N]) -> Verdict
    ensures { result ≡ row_verdict (more_row cause N most.now table.now) }
{
    refused_if(cause, more(most, table))
}

fn sums(ports: [Port; 8]) -> [u64; 8]
    ensures long { length result ≡ 8 }
    ensures each { (k : ℕ) → k < 8 → get_or result k 0 ≡ (get_or ports k no_port).sum }
{
    ports.map(|port| port.sum)
}

// What rows 12 to 15 ask of a side, whose ports have so many on the other side.
pub fn weigh<P: End>(cause: Cause, count: u32, capacities: &[u32; 8], plan: &Plan) -> Weighed
    ensures { result ≡ weighed cause capacities.now plan.now.base (λ k. port_of count (λ i. get_or plan.now.numerators (P.flow (P.numbered k) i) 0)) }
{
    let full = scaled(capacities, plan.base);
    let ports = ports::<P>(count, &plan.numerators);
    Weighed {
        over: more_row(cause, &full, &sums(ports)),
        levels: levels(&full, &ports),
    }
}
