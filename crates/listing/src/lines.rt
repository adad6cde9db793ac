// The lines of a text, each put behind what is written so far.
ghost use Rattle.std.specs.Prelude.{◌++◌, ◌<◌, ◌≡◌};
ghost use Rattle.switch.specs.Within.{Within};
ghost use Rattle.texts.specs.Listing.{first_line, cell_line, input_lines, cell_lines, plan_text, refused_text};
ghost use Rattle.listing.specs.Room.{HasRoom};

use crate::text::Text;
use switch::plan::Plan;
use switch::port::{Input, Output, cell};
use switch::request::Request;
use switch::verdict::Refusal;

// The lines that a request within the limits and its plan have.
#[derive(Clone, Copy)]
pub struct Lines<'a> {
    pub request: &'a Request,
    pub plan: &'a Plan,
    ghost within: { Within request.now },
}

impl Lines<'_> {
    #[tactic(auto, using(crate::proofs::Pieces::pieces), unfolding(texts::specs::Listing::first_line))]
    fn first_line(&self, text: &mut Text)
        requires { HasRoom text.old (first_line self.now.request.now.m self.now.request.now.n self.now.plan.now.base) }
        ensures { text.new ≡ text.old ++ first_line self.now.request.now.m self.now.request.now.n self.now.plan.now.base }
    {
        text.word(b"plan ");
        text.field(u64::from(self.request.m), b' ');
        text.field(u64::from(self.request.n), b' ');
        text.word(b"base ");
        text.field(self.plan.base, b'\n');
    }

    // The line of the flow from `u` to `v`.
    #[tactic(auto, using(crate::proofs::Pieces::pieces), unfolding(texts::specs::Listing::flow_line))]
    fn cell_line(&self, text: &mut Text, u: Input, v: Output)
        requires used { (u.0 < self.now.request.now.m) × (v.0 < self.now.request.now.n) }
        requires room { HasRoom text.old (cell_line self.now.request.now self.now.plan.now u v) }
        ensures { text.new ≡ text.old ++ cell_line self.now.request.now self.now.plan.now u v }
    {
        let c = cell(u, v) as usize;
        text.field(u64::from(u.0), b' ');
        text.field(u64::from(v.0), b' ');
        text.field(u64::from(self.request.demands[c]), b' ');
        text.field(self.plan.numerators[c], b' ');
        text.field(u64::from(self.plan.reasons[c]), b'\n');
    }

    // The lines of an input's flows, output by output.
    #[tactic(auto, using(crate::proofs::Pieces::texts))]
    fn input_lines(&self, text: &mut Text, u: Input)
        requires used { u.0 < self.now.request.now.m }
        requires room { HasRoom text.old (input_lines self.now.request.now self.now.plan.now u) }
        ensures { text.new ≡ text.old ++ input_lines self.now.request.now self.now.plan.now u }
    {
        for v in 0..self.request.n {
            self.cell_line(text, u, Output(v));
        }
    }

    // The lines of all flows, input by input.
    #[tactic(auto, using(crate::proofs::Pieces::texts))]
    fn cell_lines(&self, text: &mut Text)
        requires { HasRoom text.old (cell_lines self.now.request.now self.now.plan.now) }
        ensures { text.new ≡ text.old ++ cell_lines self.now.request.now self.now.plan.now }
    {
        for u in 0..self.request.m {
            self.input_lines(text, Input(u));
        }
    }

    // The whole text of a plan.
    #[tactic(auto, using(crate::proofs::Pieces::pieces), unfolding(texts::specs::Listing::plan_text, texts::specs::Listing::last_line))]
    pub fn plan_text(&self, text: &mut Text)
        requires { HasRoom text.old (plan_text self.now.request.now self.now.plan.now) }
        ensures { text.new ≡ text.old ++ plan_text self.now.request.now self.now.plan.now }
    {
        self.first_line(text);
        self.cell_lines(text);
        text.word(b"end ");
        text.field(u64::from(self.request.m * self.request.n), b'\n');
    }
}

// The line of a refusal.
#[tactic(auto, using(crate::proofs::Pieces::pieces), unfolding(texts::specs::Listing::refused_text))]
pub fn refused_text(text: &mut Text, refusal: Refusal)
    requires { HasRoom text.old (refused_text refusal) }
    ensures { text.new ≡ text.old ++ refused_text refusal }
{
    text.word(b"refused ");
    text.field(u64::from(refusal.cause.number()), b' ');
    text.field(refusal.place, b'\n');
}
