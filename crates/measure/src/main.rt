// Plans the requests on standard input over and over, or checks their plan files, and prints one number made of all the
// answers: bench/run counts the instructions of it. The input is a word and then request files one after the other. The lower
// half of the word is the number of rounds, the upper half says what is measured.
#![tactic(auto)]

mod digest;
mod rounds;
mod saved;

fn main() {
    io::print_decimal(1, rounds::all());
    io::write_all(1, b"\n");
}
