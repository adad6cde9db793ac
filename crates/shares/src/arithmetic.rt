// A product of 64 bits that stops at the largest number, so that no caller has to rule out that it is too large.
ghost use Rattle.std.specs.Prelude.{◌≡◌, ◌*◌};
ghost use Rattle.worked.specs.Saturated.{capped};

// A base of at most 2^32, as plans have, takes one product: if it is not asked for first, the check of a plan file costs 2% more.
pub fn times(a: u32, b: u64) -> u64
    ensures { result ≡ capped (a * b) }
{
    let a = u64::from(a);
    if b <= 4_294_967_296 {
        return a * b;
    }
    a.saturating_mul(b)
}
