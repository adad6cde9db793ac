// A row by a search: the place of what is found is what the row refuses.
ghost use Rattle.std.specs.Prelude.{◌≡◌};
ghost use Rattle.checker.specs.Found.{refusal_of};

use switch::verdict::{Cause, Verdict, refused};

pub fn refused_if(cause: Cause, found: Option<usize>) -> Verdict
    ensures { result ≡ refusal_of cause found }
{
    match found {
        Some(place) => refused(cause, place as u64),
        None => Verdict::Accepted,
    }
}
