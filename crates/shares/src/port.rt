// The ports of a plan: what their flows add up to, and the largest of them.
ghost use Rattle.std.specs.Prelude.{◌≡◌, ◌+◌, max, get_or};
ghost use Rattle.worked.specs.Port.{port_of, input_port, output_port};
ghost use Rattle.worked.specs.Saturated.{capped};

use switch::entry::entry;
use switch::port::{End, Input, Output};
use worked::port::Port;

// The port with one more flow. Its sum stops at the largest number, so that no caller has to rule out that it is too large.
fn with(port: Port, x: u64) -> Port
    ensures { result ≡ record { sum = capped (port.sum + x); most = max port.most x } }
{
    Port {
        sum: port.sum.saturating_add(x),
        most: port.most.max(x),
    }
}

// What the flow between `p` and port k of the other side gets.
fn flow<P: End>(numerators: &[u64], p: P, k: u32) -> u64
    ensures { result ≡ get_or numerators.now (P.flow p k) 0 }
{
    entry(numerators, p.flow(k), 0)
}

// The port `p` of a switch that has `count` ports on the other side.
pub fn port<P: End>(count: u32, numerators: &[u64], p: P) -> Port
    ensures { result ≡ port_of count (λ k. get_or numerators.now (P.flow p k) 0) }
{
    let mut port = Port { sum: 0, most: 0 };
    for k in 0..count.min(8) {
        port = with(port, flow(numerators, p, k));
    }
    port
}

// An input has a flow to each of n outputs. (This and the next are public calls that docs/PROMISES.md names; both are `port`.)
pub fn input_port(n: u32, numerators: &[u64], u: Input) -> Port
    ensures { result ≡ input_port n numerators.now u }
{
    port(n, numerators, u)
}

// An output has a flow from each of m inputs.
pub fn output_port(m: u32, numerators: &[u64], v: Output) -> Port
    ensures { result ≡ output_port m numerators.now v }
{
    port(m, numerators, v)
}
