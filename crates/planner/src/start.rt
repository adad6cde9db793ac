// The stage of every flow at the start.
ghost use Rattle.std.specs.Prelude.{◌<◌, ◌≡◌, ◌||◌, ltb};
ghost use Rattle.laws.specs.Lists.{cells};
ghost use Rattle.planner.specs.Engine.{BeginRoom, BegunAt, StartRoom, Started};

use crate::flows::Flows;
use crate::stage::{Kind, Stage};
use crate::tables::Tables;

impl Tables {
    // A flow with a minimum has it at once and waits; any other rises, unless it asks for nothing. Whether some flow waits is handed
    // in and answered, so that only a flow with a minimum changes it.
    fn begin(&mut self, flows: &Flows, cell: usize, held: bool) -> bool
        requires { (cell < 64) × BeginRoom flows.now cell self.old }
        ensures waits { result ≡ (held || ltb 0 (cells flows.now.minima.now cell)) }
        ensures begun { BegunAt flows.now cell self.old self.new }
    {
        let minimum = u64::from(flows.minima[cell]);
        let weight = u64::from(flows.weights[cell]);
        if 0 < minimum {
            self.stages[cell] = Stage::of(Kind::Waiting);
            flows.take(cell, minimum, &mut self.left);
            true
        } else if 0 < flows.demands[cell] {
            self.stages[cell] = Stage::of(Kind::Rising);
            flows.give(cell, weight, &mut self.parts);
            held
        } else {
            self.stages[cell] = Stage::of(Kind::Met);
            held
        }
    }

    // Sets out all flows, and tells whether some have to wait: if none has, the search need not look at flows.
    pub fn start(&mut self, flows: &Flows) -> bool
        requires { StartRoom flows.now self.old }
        ensures { Started flows.now result self.old self.new }
    {
        let mut held = false;
        // By number: three tables change at the cell.
        for cell in 0..64 {
            held = self.begin(flows, cell, held);
        }
        held
    }
}
