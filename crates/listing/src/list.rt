// The call that lists the plan of a request file.
ghost use Rattle.std.specs.Prelude.{◌≡◌, ◌≤◌, [], length, take};
ghost use Rattle.texts.specs.Listing.{listing_of, listed, listed_in};

use crate::lines::{Lines, refused_text};
use crate::text::Text;
use files::request::read_request;
use planner::plan::plan;
use switch::verdict::{Cause, Verdict, refused};
use texts::list::Listed;

// The text for a file. (Handed in and not back: by value it would be cleared three times.)
#[tactic(auto, using(crate::proofs::Read::read))]
fn text_of(file: &[u8], text: &mut Text)
    requires { text.old ≡ [] }
    ensures { text.new ≡ listing_of file.now }
{
    let read = read_request(file);
    match read.verdict {
        Verdict::Accepted => {
            let answer = plan(read.request);
            let lines = Lines {
                request: &read.request,
                plan: &answer.plan,
            };
            lines.plan_text(text);
        }
        Verdict::Refused(refusal) => refused_text(text, refusal),
    }
}

// Lists the plan of a request file, or the refusal that reading it gives, into the beginning of a buffer.
#[tactic(auto, using(crate::proofs::Copied::copied))]
pub fn list(file: &[u8], text: &mut [u8]) -> Listed
    ensures value { result ≡ listed file.now text.old }
    ensures text_after { text.new ≡ listed_in file.now text.old }
    ensures length_in_bounds { (result.length ≤ length text.new) × (result.length ≡ length (take result.length text.new)) }
{
    let mut listing = Text::new();
    text_of(file, &mut listing);
    let bytes = listing.as_bytes();
    let length = bytes.len();
    // (Not files' room_row: the room is for this text, whose length is known only now.)
    if text.len() < length {
        return Listed {
            verdict: refused(Cause::Room, 0),
            length: 0,
        };
    }
    text[..length].copy_from_slice(bytes);
    Listed {
        verdict: Verdict::Accepted,
        length: length as u32,
    }
}
