// The flows that the engine is handed.
ghost use Rattle.std.specs.Prelude.{◌≤◌};
ghost use Rattle.planner.specs.Sizes.{most_asked, most_parts};
ghost use Rattle.planner.specs.Tables.{Bounded};

// Whether there are cards, the largest weight, and for each cell what its flow asks for, its minimum and its weight. (Tables beside
// each other: the demands are lent from the request, and definitions and lemmas speak of each as a list.) A cell is a number with
// `cell < 64` in ten contracts: tried as a struct with a ghost field, it proves, but `.at` stands 55 times in their place.
#[derive(Clone, Copy)]
pub struct Flows<'a> {
    pub cards: bool,
    pub heaviest: u64,
    pub demands: &'a [u32; 64],
    pub minima: &'a [u32; 64],
    pub weights: &'a [u32; 64],
    ghost demands_small: { Bounded 64 most_asked demands.now },
    ghost minima_small: { Bounded 64 most_asked minima.now },
    ghost weights_small: { Bounded 64 most_parts weights.now },
    ghost none_heavier: { Bounded 64 heaviest weights.now },
    ghost heaviest_small: { heaviest ≤ most_parts },
}

impl Flows<'_> {
    ghost use Rattle.std.specs.Prelude.{◌≡◌};
    ghost use Rattle.planner.specs.Limits.{limits_of};

    // How many limits there are.
    pub fn limits(&self) -> usize
        ensures { result ≡ limits_of self.now.cards }
    {
        if self.cards { 20 } else { 16 }
    }
}
