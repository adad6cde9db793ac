// The request of the worked listing, and its files. Its plan has base 2, numerators 7, 7 / 4, 2 and reasons 1, 1 / 0, 0.
use crate::show::Both;
use files::check::check;
use files::request::read_request;
use switch::request::Request;

// Two inputs of 7 and 10, two outputs of 10 and 10, demands 10, 10 / 2, 1.
pub fn request() -> Request {
    let mut demands = [0; 64];
    demands[0] = 10;
    demands[1] = 10;
    demands[8] = 2;
    demands[9] = 1;
    Request {
        m: 2,
        n: 2,
        inputs: [7, 10, 0, 0, 0, 0, 0, 0],
        outputs: [10, 10, 0, 0, 0, 0, 0, 0],
        demands,
    }
}

// Reads a request file and checks a plan file.
pub fn read(request: &[u8], plan: &[u8]) -> Both {
    let answer = read_request(request);
    Both {
        request: answer.verdict,
        plan: check(plan),
    }
}
