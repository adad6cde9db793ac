// The greatest common divisor, and the reduction of a base and its numerators by it.
ghost use Rattle.std.specs.Prelude.{◌≡◌, ◌<◌, ◌/◌};
ghost use Rattle.fairness.specs.Divisor.{gcd, gcd_of, divided};
ghost use Rattle.worked.specs.Reduced.{reduced_base, reduced_numerators};

// Euclid's algorithm. The first division is that of `a` by `b`, and the last if `b` divides `a`; if `a` is 0 there is none, and
// most numerators of a sparse plan are.
pub fn divisor(a: u64, b: u64) -> u64
    ensures { result ≡ gcd a b }
{
    if a == 0 {
        return b;
    }
    let mut a = a;
    let mut b = b;
    while b != 0 {
        let rest = a % b;
        a = b;
        b = rest;
    }
    a
}

// The divisor so far is the second operand: where it divides the next numerator, one division tells. At 1 it can fall no
// further.
pub fn common_divisor(base: u64, numerators: &[u64]) -> u64
    ensures { result ≡ gcd_of base numerators.now }
{
    let mut common = base;
    for x in numerators {
        if common == 1 {
            return 1;
        }
        common = divisor(*x, common);
    }
    common
}

// Nothing takes longer than a division, and 0 needs none.
fn quotient(x: u64, by: u64) -> u64
    requires { 0 < by }
    ensures { result ≡ x / by }
{
    if x == 0 { 0 } else { x / by }
}

fn divide(by: u64, numerators: &mut [u64])
    requires { 0 < by }
    ensures { numerators.new ≡ divided by numerators.old }
{
    for x in numerators {
        *x = quotient(*x, by);
    }
}

// Hands back the least base, and leaves the numerators over it. The divisor is 0 only if all numbers are 0.
pub fn reduce(base: u64, numerators: &mut [u64]) -> u64
    ensures value { result ≡ reduced_base base numerators.old }
    ensures numerators_after { numerators.new ≡ reduced_numerators base numerators.old }
{
    let common = common_divisor(base, numerators);
    let least = common < 2;
    if least {
        return base;
    }
    divide(common, numerators);
    base / common
}
