// What reading a request file answers.
use switch::request::Request;
use switch::verdict::Verdict;

// A verdict, and the request, which is all zeros if the verdict refuses. (No `Result`, and no type in common with a planning's answer:
// document 01 promises the zeros with a refusal, and `request_read` says so.)
#[derive(Clone, Copy)]
pub struct RequestRead {
    pub verdict: Verdict,
    pub request: Request,
}
