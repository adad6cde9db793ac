// Buffers of lengths about those of the files: the worked listing's files are written into them, and they are read as files.
ghost use Rattle.std.specs.Prelude.{◌<◌, ◌≤◌};

use crate::example::{read, request};
use files::plan::write_plan;
use files::request::write_request;
use std::fmt;
use switch::request::Request;
use switch::verdict::Verdict;

#[derive(Clone, Copy)]
enum File {
    Request,
    Plan,
}

impl File {
    fn length(self) -> usize
        ensures { (0 < result) × (result ≤ 1536) }
    {
        match self {
            File::Request => 512,
            File::Plan => 1536,
        }
    }

    fn write(self, request: Request, buffer: &mut [u8]) -> Verdict {
        match self {
            File::Request => write_request(request, buffer),
            File::Plan => write_plan(request, buffer),
        }
    }
}

fn written(out: &mut impl fmt::Write, file: File, m: u32, buffer: &mut [u8]) -> fmt::Result {
    let verdict = file.write(Request { m, ..request() }, buffer);
    write!(out, " is {}: {}", verdict, read(buffer, buffer))?;
    if let (Some(first), Some(last)) = (buffer.first(), buffer.last()) {
        write!(out, ", first byte {first}, last byte {last}")?;
    }
    writeln!(out)
}

// Every byte is 170 before.
fn tried(out: &mut impl fmt::Write, file: File, m: u32, room: usize) -> fmt::Result {
    let length = file.length();
    write!(out, "file of {length} bytes into {room} with m = {m}")?;
    let mut space = [170; 1537];
    let room = room.min(space.len());
    written(out, file, m, &mut space[..room])
}

fn rooms(out: &mut impl fmt::Write, file: File, m: u32) -> fmt::Result {
    let length = file.length();
    for room in [0, length - 1, length, length + 1] {
        tried(out, file, m, room)?;
    }
    Ok(())
}

pub fn all(out: &mut impl fmt::Write) -> fmt::Result {
    rooms(out, File::Request, 0)?;
    rooms(out, File::Request, 2)?;
    rooms(out, File::Plan, 0)?;
    rooms(out, File::Plan, 2)
}
