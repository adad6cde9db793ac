// A limit fills, and every flow that passes it stops.
ghost use Rattle.std.specs.Prelude.{◌≤◌, ◌<◌, ◌≡◌};
ghost use Rattle.planner.specs.Sizes.{most_base, most_high, most_parts};
ghost use Rattle.planner.specs.Limits.{limits_of, through};
ghost use Rattle.planner.specs.Areas.{on_card, area_of};
ghost use Rattle.planner.specs.Tables.{Bounded, Scaled};
ghost use Rattle.planner.specs.Engine.{HaltRoomAt, HaltedAt, HaltRoom, HaltTo, ShutReady, Shut};

use crate::filling::Filling;
use crate::flows::Flows;
use crate::level::Level;
use crate::stage::{Kind, Stage};
use crate::tables::Tables;

// A walk goes over the cells of a limit from the first of them to the end in equal steps.
#[derive(Clone, Copy)]
pub struct Area {
    pub first: usize,
    pub end: usize,
    pub step: usize,
}

#[tactic(auto, unfolding(crate::specs::Areas::first_of, crate::specs::Areas::end_of, crate::specs::Areas::step_of))]
fn area_of(limit: usize) -> Area
    requires { limit < 20 }
    ensures { result ≡ area_of limit }
{
    if limit < 8 {
        return Area {
            first: 8 * limit,
            end: 8 * limit + 8,
            step: 1,
        };
    }
    if limit < 16 {
        return Area {
            first: limit - 8,
            end: 64,
            step: 8,
        };
    }
    if limit < 18 {
        return Area {
            first: 32 * (limit - 16),
            end: 32 * (limit - 16) + 32,
            step: 1,
        };
    }
    Area {
        first: 4 * (limit - 18),
        end: 64,
        step: 1,
    }
}

impl Tables {
    // Stops the flow of a cell: a rising one at the level, a waiting one where it is. The walk over an output card comes past
    // cells of the other card, and they are left as they are; without cards every walk comes to the limit's own cells only.
    fn halt(&mut self, flows: &Flows, cell: usize, limit: usize, level: Level)
        requires { (cell < 64) × (limit < limits_of flows.now.cards) × (through limit cell ≡ on_card limit cell) × HaltRoomAt flows.now limit level.high cell self.old }
        ensures { HaltedAt flows.now limit level.high cell self.old self.new }
    {
        if !flows.cards | (limit < 18) | (18 + cell % 8 / 4 == limit) {
            let share = u64::from(flows.weights[cell]);
            match self.stages[cell].kind() {
                Kind::Waiting => self.stages[cell] = Stage::of(Kind::Held),
                Kind::Rising => self.stop(
                    flows,
                    cell,
                    Kind::Stopped(limit),
                    share * level.high,
                    share,
                ),
                _ => {}
            }
        }
    }

    // Stops every flow that passes a limit, at the level.
    fn halt_all(&mut self, flows: &Flows, limit: usize, level: Level)
        requires { (limit < limits_of flows.now.cards) × HaltRoom flows.now limit level.high self.old }
        ensures { HaltTo flows.now limit level.high 64 self.old self.new }
    {
        let area = area_of(limit);
        for cell in (area.first..area.end).step_by(area.step) {
            self.halt(flows, cell, limit, level);
        }
    }
}

// Multiplies the front of a table. (Not lent as a slice: where a struct has a ghost field, as `base_small`, the borrow checker has
// no rule yet for lending a part of the array in another field.)
fn scale(count: usize, k: u64, table: &mut [u64; 20])
    requires { (count ≤ 20) × Bounded count most_high table.old × (k ≤ most_parts) }
    ensures { Scaled count k table.old table.new }
{
    for entry in &mut table[..count] {
        *entry *= k;
    }
}

impl Filling {
    // A limit fills at a level. The base grows by the level's parts, so that the level is a whole number.
    pub fn shut(&mut self, flows: &Flows, limit: usize, level: Level)
        requires { ShutReady flows.now limit level self.old }
        ensures { Shut flows.now limit level self.old self.new }
    {
        let count = flows.limits();
        self.base *= level.parts;
        scale(count, level.parts, &mut self.levels);
        scale(count, level.parts, &mut self.tables.left);
        self.levels[limit] = level.high;
        self.tables.halt_all(flows, limit, level);
    }
}
