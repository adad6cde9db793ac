// The worked listing's plan file with words changed, run by run of a table. The request's file is its first block, so each
// change is tried on both; and the file is proposed in place of a running one.
use crate::example::{read, request};
use crate::file_rows::{CHANGES, CHOICES};
use crate::show::as_well;
use blocks::check::{seal, start_of};
use blocks::word::{put, word};
use files::choose::choose;
use files::plan::write_plan;
use std::fmt;
use switch::request::Request;

// A word of the file, what it is changed to, and how its block is sealed then: as it is, as if it were the next one, or not
// again.
#[derive(Clone, Copy)]
pub enum Change {
    Sealed { word: u16, to: u32 },
    AsNext { word: u16, to: u32 },
    Unsealed { word: u16, to: u32 },
}

impl Change {
    fn word(self) -> (u16, u32) {
        match self {
            Change::Sealed { word, to }
            | Change::AsNext { word, to }
            | Change::Unsealed { word, to } => (word, to),
        }
    }

    fn seal(self) -> &'static str {
        match self {
            Change::Sealed { .. } => "",
            Change::AsNext { .. } => ", sealed as the next block",
            Change::Unsealed { .. } => ", not sealed",
        }
    }

    fn make(self, file: &mut [u8]) {
        let (word, to) = self.word();
        let block = u32::from(word / 128);
        put(file, u64::from(word), to);
        match self {
            Change::Sealed { .. } => seal(start_of(block), file, block),
            Change::AsNext { .. } => seal(start_of(block + 1), file, block),
            Change::Unsealed { .. } => {}
        }
    }
}

// The plan that is chosen is told by its base.
fn judged(out: &mut impl fmt::Write, file: &[u8; 1536], running: &[u8]) -> fmt::Result {
    let part = choose(file, running);
    let both = read(&file[..512], file);
    writeln!(
        out,
        ": {both}, chosen {} bytes of base {}",
        part.len(),
        word(part, 1)
    )
}

// The changes come one on top of another, and each is tried.
fn run(out: &mut impl fmt::Write, changes: &[Change], running: &[u8]) -> fmt::Result {
    let mut file = [0; 1536];
    write_plan(request(), &mut file);
    for (before, change) in changes.iter().enumerate() {
        let (word, to) = change.word();
        change.make(&mut file);
        write!(
            out,
            "file, word {word} = {to}{}{}",
            as_well(0 < before),
            change.seal()
        )?;
        judged(out, &file, running)?;
    }
    Ok(())
}

fn table(out: &mut impl fmt::Write, table: &[&[Change]], running: &[u8]) -> fmt::Result {
    for changes in table {
        run(out, changes, running)?;
    }
    Ok(())
}

// The plan of this request is running, and is then damaged.
pub fn all(out: &mut impl fmt::Write, request: Request) -> fmt::Result {
    let mut running = [0; 1536];
    write_plan(request, &mut running);
    table(out, &CHANGES, &running)?;
    writeln!(out, "the running file damaged")?;
    put(&mut running, 130, 1);
    table(out, &CHOICES, &running)
}
