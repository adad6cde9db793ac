// Bytes in sight: the checks of blocks without content, and the drawn request file with its plan file.
use crate::example::request;
use blocks::check::{check, start_of};
use files::plan::write_plan;
use files::request::write_request;
use std::fmt;

fn empty_check(out: &mut impl fmt::Write, block: u32) -> fmt::Result {
    let sum = check(start_of(block), &[0; 512], 0);
    writeln!(out, "check of block {block} without content: {sum:08x}")
}

// Sixteen bytes of a file, after the number of the first.
#[derive(Clone, Copy)]
struct Line<'a> {
    at: u64,
    bytes: &'a [u8],
}

impl fmt::Display for Line<'_> {
    fn fmt<W: fmt::Write>(&self, f: &mut fmt::Formatter<W>) -> fmt::Result {
        write!(f, "{:06x}", self.at)?;
        for byte in self.bytes {
            write!(f, " {byte:02x}")?;
        }
        Ok(())
    }
}

fn lines(out: &mut impl fmt::Write, file: &[u8]) -> fmt::Result {
    for (at, bytes) in (0..).step_by(16).zip(file.chunks_exact(16)) {
        let line = Line { at, bytes };
        writeln!(out, "{line}")?;
    }
    Ok(())
}

pub fn all(out: &mut impl fmt::Write) -> fmt::Result {
    for block in 0..3 {
        empty_check(out, block)?;
    }
    let mut file = [0; 512];
    write_request(request(), &mut file);
    writeln!(out, "the file as drawn:")?;
    lines(out, &file)?;
    let mut file = [0; 1536];
    write_plan(request(), &mut file);
    writeln!(out, "the plan file as drawn:")?;
    lines(out, &file)
}
