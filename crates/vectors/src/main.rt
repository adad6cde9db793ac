// Runs the examples of the rules that are there to be run, provokes each refusal, and prints what was answered.
#![tactic(auto)]

mod changes;
mod drawn;
mod dump;
mod example;
mod file_rows;
mod lengths;
mod show;
mod value_rows;
mod values;

use std::fmt;

// Standard output by io and not by std's printing: of the C library it asks write alone. A piece that cannot be written is passed
// over, and what comes after it is written all the same.
#[derive(Clone, Copy)]
struct Out;

impl fmt::Write for Out {
    fn write_str(&mut self, text: &str) -> fmt::Result {
        io::write_all(1, text.as_bytes());
        Ok(())
    }
}

fn all(out: &mut impl fmt::Write) -> fmt::Result {
    writeln!(out, "the worked listing")?;
    let last = values::all(out, example::request(), &drawn::LISTING)?;
    writeln!(out, "the triangle")?;
    values::all(out, last.request, &drawn::PLANS)?;
    writeln!(out, "the triangle again")?;
    values::all(out, last.request, &value_rows::CHANGES)?;
    changes::all(out, last.request)?;
    lengths::all(out)?;
    dump::all(out)
}

// The writer knows no error: where the output is lost there is nobody to tell.
fn main() {
    let _ = all(&mut Out);
}
