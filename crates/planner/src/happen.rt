// What happens at a level: a limit fills, or a waiting flow's minimum is reached.
ghost use Rattle.std.specs.Prelude.{◌≤◌, ◌<◌, ◌*◌};
ghost use Rattle.laws.specs.Lists.{cells};
ghost use Rattle.planner.specs.Sizes.{most_base};
ghost use Rattle.planner.specs.Tables.{Holds};
ghost use Rattle.planner.specs.Engine.{Freed, FillsReady, ReachesReady, Happened};

use crate::filling::Filling;
use crate::flows::Flows;
use crate::level::{Event, Level};
use crate::stage::{Kind, Stage};

impl Filling {
    // The flow of a cell, which waited at its minimum, begins to rise. It may ask for less than any that rose before.
    fn free(&mut self, flows: &Flows, cell: usize)
        requires { (cell < 64) × Holds flows.now.cards cell (cells flows.now.minima.now cell * self.old.base) self.old.tables.left × Holds flows.now.cards cell (cells flows.now.weights.now cell) self.old.tables.parts }
        ensures { Freed flows.now cell self.old self.new }
    {
        let x = u64::from(flows.minima[cell]) * self.base;
        let weight = u64::from(flows.weights[cell]);
        self.tables.stages[cell] = Stage::of(Kind::Rising);
        flows.give(cell, x, &mut self.tables.left);
        flows.give(cell, weight, &mut self.tables.parts);
        self.least = 0;
    }

    // The event of a level takes place.
    pub fn happen(&mut self, flows: &Flows, level: Level)
        requires { FillsReady flows.now level self.old × ReachesReady flows.now level self.old }
        ensures { Happened flows.now level self.old self.new }
    {
        match level.event {
            Event::Fills(limit) => self.shut(flows, limit, level),
            Event::Reaches(cell) => self.free(flows, cell),
        }
    }
}
