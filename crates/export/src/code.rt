// A verdict as one number.
ghost use Rattle.std.specs.Prelude.{◌≡◌};
ghost use Rattle.codes.specs.Code.{code_of, Placed};

use switch::verdict::Verdict;

// The refusal's number in the upper 32 bits, and its place in the lower ones. (No From: the place has to fit 32 bits, which
// Placed says.)
pub fn code(verdict: Verdict) -> u64
    requires { Placed verdict }
    ensures { result ≡ code_of verdict }
{
    match verdict {
        Verdict::Accepted => 0,
        Verdict::Refused(refusal) => {
            4_294_967_296 * u64::from(refusal.cause.number()) + refusal.place
        }
    }
}
