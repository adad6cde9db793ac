// A level, and what happens there.
ghost use Rattle.std.specs.Prelude.{◌≤◌};
ghost use Rattle.planner.specs.Sizes.{most_high, most_parts};

// A limit fills, or the minimum of a cell's waiting flow is reached.
#[derive(Clone, Copy)]
pub enum Event {
    Fills(usize),
    Reaches(usize),
}

// `high` over `parts`, small enough that products of two of them fit 64 bits.
#[derive(Clone, Copy)]
pub struct Level {
    pub high: u64,
    pub parts: u64,
    pub event: Event,
    ghost high_small: { high ≤ most_high },
    ghost parts_small: { parts ≤ most_parts },
}

impl Level {
    ghost use Rattle.std.specs.Prelude.{◌≡◌};
    ghost use Rattle.fairness.specs.Filling.{never, lower};
    ghost use Rattle.planner.specs.Engine.{level_of, next_of};

    // 1 over 0 is above all others: a search begins with it, and its event never happens. (No Option on the way: `never` and
    // `lowest` of fairness are this search, and `next_level` makes an Option of its answer.)
    pub fn never() -> Level
        ensures { next_of result ≡ never }
    {
        Level {
            high: 1,
            parts: 0,
            event: Event::Fills(0),
        }
    }

    // Two levels are compared by multiplying across. If they are level, the first counts.
    pub fn lower(self, other: Level) -> Level
        ensures { next_of result ≡ lower (next_of self) (level_of other) }
    {
        if other.high * self.parts < self.high * other.parts {
            other
        } else {
            self
        }
    }
}
