// Request files: a request saved in one block of 512 bytes, and read back.
ghost use Rattle.std.specs.Prelude.{◌≡◌, [], ◌∷◌};
ghost use Rattle.switch.specs.RequestRows.{request_verdict};
ghost use Rattle.switch.specs.Rows.{row_verdict, or_else, verdict_of};
ghost use Rattle.formats.specs.FileRows.{length_row, check_row, kind_row, spare_row};
ghost use Rattle.formats.specs.RequestFile.{request_in, request_read, request_written};
ghost use Rattle.formats.specs.Writing.{write_verdict};

use crate::layout::write_block;
use crate::read::request_in;
use crate::rows::{frame_rows, room_row, spare_row};
use formats::request::RequestRead;
use requests::check::check;
use switch::request::Request;
use switch::verdict::Verdict;

// Rows 1 to 7: the first that refuses counts.
#[tactic(auto, unfolding(switch::specs::Rows::verdict_of))]
fn all_rows(file: &[u8]) -> Verdict
    ensures { result ≡ or_else (verdict_of (length_row 512 file.now ∷ check_row 1 file.now ∷ kind_row (1 ∷ []) file.now ∷ [])) (or_else (request_verdict (request_in file.now)) (row_verdict (spare_row 0 83 44 file.now))) }
{
    frame_rows(file, &[1])?;
    check(request_in(file))?;
    spare_row(file, 0, 83, 44)
}

// Reads a request file. Any bytes could be read, since past their end there is 0 to read; but what a refused file holds is not
// handed back.
#[tactic(auto, using(crate::proofs::Reading::read_in_order))]
pub fn read_request(file: &[u8]) -> RequestRead
    ensures { result ≡ request_read file.now }
{
    let verdict = all_rows(file);
    let request = match verdict {
        Verdict::Accepted => request_in(file),
        Verdict::Refused(_) => Request::zero(),
    };
    RequestRead { verdict, request }
}

// Writes a request's file into the first 512 bytes: rows 4 to 7, then 16. Nothing is written before all of them accept.
#[tactic(auto, unfolding(switch::specs::Rows::verdict_of))]
pub fn write_request(request: Request, buffer: &mut [u8]) -> Verdict
    ensures value { result ≡ write_verdict 512 request buffer.old }
    ensures buffer_after { buffer.new ≡ request_written request buffer.old }
{
    check(request)?;
    room_row(buffer, 512)?;
    write_block(&request, 0, buffer);
    Verdict::Accepted
}
