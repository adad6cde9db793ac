// How a filling stands between two turns.
ghost use Rattle.std.specs.Prelude.{◌≤◌};
ghost use Rattle.planner.specs.Sizes.{most_base};

use crate::tables::Tables;

// Whether some flow had a minimum at the start, the base, a number that no demand of a rising flow is below, and the level at
// which each limit filled, over the base: a list beside the tables of the limits, for `scale` changes one of them alone.
#[derive(Drop)]
pub struct Filling {
    pub held: bool,
    pub base: u64,
    pub least: u64,
    pub levels: [u64; 20],
    pub tables: Tables,
    ghost base_small: { base ≤ most_base },
}
