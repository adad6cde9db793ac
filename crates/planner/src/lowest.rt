// The search for the lowest level at which something happens.
ghost use Rattle.std.specs.Prelude.{◌≤◌, ◌<◌, ◌≡◌, eqb};
ghost use Rattle.laws.specs.Lists.{cells};
ghost use Rattle.fairness.specs.Total.{on};
ghost use Rattle.fairness.specs.Filling.{never, lowest};
ghost use Rattle.planner.specs.Sizes.{most_base};
ghost use Rattle.planner.specs.Limits.{limits_of};
ghost use Rattle.planner.specs.Engine.{next_of, limit_event, flow_event, next_event, Found, LimitsSmall};

use crate::filling::Filling;
use crate::flows::Flows;
use crate::level::{Event, Level};
use crate::stage::Kind;
use crate::tables::Tables;

impl Tables {
    fn lowest_limit(&self, flows: &Flows) -> Level
        requires { LimitsSmall flows.now.cards self.now }
        ensures { next_of result ≡ lowest (limits_of flows.now.cards) (limit_event self.now.left self.now.parts) never }
    {
        let mut best = Level::never();
        // By number: the limit's is part of the answer, and without cards the last four are left out.
        for limit in 0..flows.limits() {
            let fills = Level {
                high: self.left[limit],
                parts: self.parts[limit],
                event: Event::Fills(limit),
            };
            best = best.lower(fills);
        }
        best
    }

    // What a flow counts in the search: its weight if it waits.
    fn waiting(&self, flows: &Flows, cell: usize) -> u64
        requires { cell < 64 }
        ensures { result ≡ on (eqb (cells self.now.stages cell) 22) (cells flows.now.weights.now cell) }
    {
        match self.stages[cell].kind() {
            Kind::Waiting => u64::from(flows.weights[cell]),
            _ => 0,
        }
    }

    // Waiting flows come after the limits.
    fn lowest_flow(&self, flows: &Flows, base: u64, first: Level) -> Level
        requires { base ≤ most_base }
        ensures { next_of result ≡ lowest 64 (flow_event base flows.now.minima.now flows.now.weights.now self.now.stages) (next_of first) }
    {
        let mut best = first;
        // By number: the cell's is part of the answer, and three tables tell what it is.
        for cell in 0..64 {
            let rises = Level {
                high: u64::from(flows.minima[cell]) * base,
                parts: self.waiting(flows, cell),
                event: Event::Reaches(cell),
            };
            best = best.lower(rises);
        }
        best
    }
}

impl Filling {
    // The lowest level of all, if anything can happen. Flows are searched only if some flow had a minimum at the start.
    pub fn next_level(&self, flows: &Flows) -> Option<Level>
        requires { LimitsSmall flows.now.cards self.now.tables }
        ensures { Found (next_event flows.now self.now) result }
    {
        let first = self.tables.lowest_limit(flows);
        let level = if self.held {
            self.tables.lowest_flow(flows, self.base, first)
        } else {
            first
        };
        let nothing = level.parts == 0;
        if nothing { None } else { Some(level) }
    }
}
