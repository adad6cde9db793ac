// A request: a switch's port capacities and the demand of each flow, with the limits of its numbers.
ghost use Rattle.std.specs.Prelude.{◌≡◌};
ghost use Rattle.switch.specs.Cells.{demand_of};
ghost use Rattle.switch.specs.Values.{zero_request};

use crate::entry::entry;

#[derive(Clone, Copy)]
pub struct Request {
    pub m: u32,
    pub n: u32,
    pub inputs: [u32; 8],
    pub outputs: [u32; 8],
    pub demands: [u32; 64],
}

impl Request {
    pub const PORTS: u32 = 8;

    pub const CAPACITY: u32 = 16_777_216;

    pub const DEMAND: u32 = 16_777_216;

    // The request whose numbers are all 0: what a refused reading hands back.
    pub fn zero() -> Self
        ensures { result ≡ zero_request }
    {
        Request {
            m: 0,
            n: 0,
            inputs: [0; 8],
            outputs: [0; 8],
            demands: [0; 64],
        }
    }

    // What the flow of a cell asks for: 0 where a number above 63 is no cell.
    pub fn demand(&self, cell: u64) -> u32
        ensures { result ≡ demand_of self.now cell }
    {
        entry(&self.demands, cell, 0)
    }
}
