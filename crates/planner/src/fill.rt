// The engine: filling, over whatever limits, minima and weights it is handed.
ghost use Rattle.std.specs.Prelude.{◌≤◌};
ghost use Rattle.fairness.specs.Fairness.{Fair};
ghost use Rattle.fairness.specs.Filling.{over};
ghost use Rattle.planner.specs.Sizes.{most_base};
ghost use Rattle.planner.specs.Engine.{sharing, Modest, Ready, Finished};

use crate::filling::Filling;
use crate::flows::Flows;
use crate::stage::{Kind, Stage};
use crate::tables::Tables;

impl Filling {
    // Turn after turn, until nothing can happen any more: flows that have their demands at the next level stop, and only if there
    // are none does happen what the level stands for.
    fn turns(&mut self, flows: &Flows)
        requires { Ready flows.now self.old }
        ensures { Finished flows.now self.old self.new }
    {
        'turns: while let Some(level) = self.next_level(flows) {
            let met = self.stop_some(flows, level);
            if !met {
                self.happen(flows, level);
            }
        }
    }
}

// Fills the numerators with fair rates and answers their base. The numerators are handed in: by value they would be copied twice,
// a hundredth of what a plan costs.
pub fn fill(flows: &Flows, capacities: [u64; 20], numerators: &mut [u64; 64]) -> u64
    requires { Modest (sharing flows.now capacities) flows.now.heaviest }
    ensures { (result ≤ most_base) × Fair (sharing flows.now capacities) (over result numerators.new) }
{
    let mut filling = Filling {
        held: false,
        base: 1,
        least: 0,
        levels: [0; 20],
        tables: Tables {
            stages: [Stage::of(Kind::Held); 64],
            left: capacities,
            parts: [0; 20],
        },
    };
    filling.held = filling.tables.start(flows);
    filling.turns(flows);
    filling.rates(flows, numerators);
    filling.base
}
