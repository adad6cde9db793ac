// The listing program: a request file on standard input, the text of its plan or of its refusal on standard output.
#![tactic(auto)]

use listing::list::list;
use texts::list::Listed;

// One byte more than a request file has is read, so that a longer file is seen to be longer.
fn main() {
    let mut file = [0; 513];
    let size = io::read_full(0, &mut file);
    let mut text = [0; Listed::LONGEST];
    let listed = list(&file[..size], &mut text);
    if !io::write_all(1, &text[..listed.length as usize]) {
        io::write_all(2, b"plan: the listing could not be written\n");
    }
}
