// The choice of the plan to load, of a proposed and a running plan file.
ghost use Rattle.std.specs.Prelude.{◌≡◌};
ghost use Rattle.formats.specs.Chosen.{chosen, chosen_at};

use crate::check::check;
use switch::verdict::Verdict;

// Hands back the plan's blocks of the proposed file if it is accepted, otherwise those of the running one if that is, and
// otherwise the empty beginning of the running one: always a part of what was lent, never a copy.
#[tactic(auto, using(crate::proofs::Checked::length_of_accepted))]
pub fn choose<'a>(proposed: &'a [u8], running: &'a [u8]) -> &'a [u8]
    ensures result_value { result.now ≡ chosen proposed.now running.now }
    ensures ref_ptr_value { result.ref_ptr ≡ chosen_at proposed.now running.now proposed.entry.ref_ptr running.entry.ref_ptr }
{
    if check(proposed) == Verdict::Accepted {
        return &proposed[512..1536];
    }
    if check(running) == Verdict::Accepted {
        return &running[512..1536];
    }
    &running[..0]
}
