// The stages of a flow.
ghost use Rattle.std.specs.Prelude.{◌≡◌};

use std::marker::Model;

// It rises, it waits at its minimum, it has stopped there, it has stopped at its demand, or at a limit that filled.
#[derive(Clone, Copy)]
pub enum Kind {
    Rising,
    Waiting,
    Held,
    Met,
    Stopped(usize),
}

// A stage is kept as the number of its kind: as an enum, which is two numbers, it would make a plan a twentieth dearer.
#[derive(Clone, Copy)]
pub struct Stage {
    number: u8,
}

impl Model for Stage {
    ghost use Rattle.std.specs.Prelude.{ℕ, ◌<◌};

    ghost Value = { ℕ };

    ghost view = { λ s. s.number };

    ghost invariant = { λ s. s.number < 24 };

    ghost inverse = { λ n. record { number = n } };
}

impl Stage {
    ghost use Rattle.planner.specs.Stages.{number_of, Numbered};

    pub fn of(kind: Kind) -> Stage
        requires { Numbered kind }
        ensures { result ≡ number_of kind }
    {
        let number = match kind {
            Kind::Rising => 20,
            Kind::Met => 21,
            Kind::Waiting => 22,
            Kind::Held => 23,
            Kind::Stopped(limit) => limit as u8,
        };
        Stage { number }
    }

    // What the walks ask for most is tried first.
    pub fn kind(self) -> Kind
        ensures value { number_of result ≡ self }
        ensures numbered { Numbered result }
    {
        let number = self.number;
        if number < 20 {
            Kind::Stopped(usize::from(number))
        } else if number == 20 {
            Kind::Rising
        } else if number == 21 {
            Kind::Met
        } else if number == 22 {
            Kind::Waiting
        } else {
            Kind::Held
        }
    }
}
