// Flows that stop, at their demand.
ghost use Rattle.std.specs.Prelude.{◌≤◌, ◌<◌, ◌≡◌, ◌||◌, false};
ghost use Rattle.laws.specs.Lists.{cells};
ghost use Rattle.fairness.specs.Filling.{some};
ghost use Rattle.planner.specs.Sizes.{most_asked, most_base};
ghost use Rattle.planner.specs.Stages.{number_of, Numbered};
ghost use Rattle.planner.specs.Tables.{Spares, Halted};
ghost use Rattle.planner.specs.Engine.{meets_at, MetRoomAt, MetAt, MetRoom, MetTo, Lightest, Light};

use crate::filling::Filling;
use crate::flows::Flows;
use crate::level::Level;
use crate::stage::{Kind, Stage};
use crate::tables::Tables;

// Whether some flow met its demand, and a number that no demand of a flow which goes on rising is below. It is no option: the
// number is known whether a flow met its demand or not.
#[derive(Clone, Copy)]
pub struct Met {
    pub any: bool,
    pub least: u64,
}

impl Met {
    // Before the walk: no flow has met its demand, and none asks for more than the limit.
    fn none() -> Met
        ensures { (result.any ≡ false) × (result.least ≡ most_asked) }
    {
        Met {
            any: false,
            // The largest demand. Not by its name: with `Request::DEMAND` the compiler makes a plan of many rounds a tenth dearer.
            least: 16_777_216,
        }
    }
}

impl Tables {
    // Gives the flow of a cell its rate, and marks why it stopped. (Why, the rate and the weight go together nowhere else.)
    pub fn stop(&mut self, flows: &Flows, cell: usize, kind: Kind, x: u64, weight: u64)
        requires { (cell < 64) × Numbered kind × Spares flows.now.cards cell x weight self.old }
        ensures { Halted flows.now.cards cell (number_of kind) x weight self.old self.new }
    {
        self.stages[cell] = Stage::of(kind);
        flows.take(cell, x, &mut self.left);
        flows.take(cell, weight, &mut self.parts);
    }

    // Stops the flow of a cell at its demand, if it rises and has its demand at or below the level. (The base is handed in, since a
    // walk over the tables does not see the filling that they are in.)
    fn meet(&mut self, flows: &Flows, cell: usize, base: u64, level: Level, met: Met) -> Met
        requires { (cell < 64) × (base ≤ most_base) × MetRoomAt flows.now base level cell self.old }
        ensures any_value { result.any ≡ (meets_at flows.now base level self.old cell || met.any) }
        ensures lightest { Lightest result met (cells flows.now.demands.now cell) (cells self.new.stages cell) }
        ensures halted { MetAt flows.now base level cell self.old self.new }
    {
        let Kind::Rising = self.stages[cell].kind() else {
            return met;
        };
        let asked = u64::from(flows.demands[cell]);
        let share = u64::from(flows.weights[cell]);
        if level.high * share < asked * (base * level.parts) {
            return Met {
                any: met.any,
                least: asked.min(met.least),
            };
        }
        self.stop(flows, cell, Kind::Met, asked * base, share);
        Met {
            any: true,
            least: met.least,
        }
    }

    // Stops every rising flow that has its demand at or below the level.
    fn stop_met(&mut self, flows: &Flows, base: u64, level: Level) -> Met
        requires { (base ≤ most_base) × MetRoom flows.now base level self.old }
        ensures any_value { result.any ≡ some 64 (meets_at flows.now base level self.old) }
        ensures light { Light 64 result.least flows.now.demands.now self.new.stages }
        ensures swept { MetTo flows.now base level 64 self.old self.new }
    {
        let mut met = Met::none();
        // By number: three tables change at the cell.
        for cell in 0..64 {
            met = self.meet(flows, cell, base, level, met);
        }
        met
    }
}

impl Filling {
    // The same, but the walk is spared where no rising flow can have its demand yet: none asks for less than the least, and none
    // weighs more than the heaviest. Answers whether some flow has stopped.
    pub fn stop_some(&mut self, flows: &Flows, level: Level) -> bool
        requires { Light 64 self.old.least flows.now.demands.now self.old.tables.stages × MetRoom flows.now self.old.base level self.old.tables }
        ensures any_value { result ≡ some 64 (meets_at flows.now self.old.base level self.old.tables) }
        ensures light { Light 64 self.new.least flows.now.demands.now self.new.tables.stages }
        ensures swept { MetTo flows.now self.old.base level 64 self.old.tables self.new.tables }
        ensures kept { (self.new.held ≡ self.old.held) × (self.new.base ≡ self.old.base) × (self.new.levels ≡ self.old.levels) }
    {
        if level.high * flows.heaviest < self.least * (self.base * level.parts) {
            return false;
        }
        let met = self.tables.stop_met(flows, self.base, level);
        self.least = met.least;
        met.any
    }
}
