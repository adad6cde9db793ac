// The numerators at the end.
ghost use Rattle.std.specs.Prelude.{◌≤◌, ◌<◌, ◌≡◌};
ghost use Rattle.planner.specs.Sizes.{most_base, most_high};
ghost use Rattle.planner.specs.Tables.{Bounded};
ghost use Rattle.planner.specs.Engine.{rate_in, rates_at};

use crate::filling::Filling;
use crate::flows::Flows;
use crate::stage::Kind;

impl Filling {
    // What a flow has is told by its stage: the level of the limit that stopped it, its demand, or its minimum.
    fn rate(&self, flows: &Flows, cell: usize) -> u64
        requires { (cell < 64) × Bounded 20 most_high self.now.levels }
        ensures { result ≡ rate_in flows.now self.now cell }
    {
        match self.tables.stages[cell].kind() {
            Kind::Stopped(limit) => u64::from(flows.weights[cell]) * self.levels[limit],
            Kind::Met => u64::from(flows.demands[cell]) * self.base,
            Kind::Rising => 0,
            Kind::Waiting | Kind::Held => u64::from(flows.minima[cell]) * self.base,
        }
    }

    // Nothing but stages and levels was kept on the way, so every numerator is worked out once, over the last base. (That
    // the levels are small holds at the end of all turns and not between them, so it is a clause and no ghost field.)
    pub fn rates(&self, flows: &Flows, numerators: &mut [u64; 64])
        requires { Bounded 20 most_high self.now.levels }
        ensures { numerators.new ≡ rates_at flows.now self.now }
    {
        for (cell, numerator) in numerators.iter_mut().enumerate() {
            *numerator = self.rate(flows, cell);
        }
    }
}
