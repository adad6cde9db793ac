// One number made of many answers, so that none can be left out and two planners can be compared. It is kept cheap, since what
// it costs is counted with them: a few sums for each cell of a plan.
use switch::plan::Plan;

// The sums so far are summed again, which counts cell c 64 - c times, and in the end 127 - 2c times: cells exchanged are
// seen, and so is a change of any one number, since an odd factor loses nothing.
pub fn sum_of(plan: &Plan) -> u64 {
    let mut sum = plan.base;
    let mut sums = 0u64;
    for (numerator, reason) in plan.numerators.iter().zip(&plan.reasons) {
        sum = sum
            .wrapping_add(*numerator)
            .wrapping_add(u64::from(*reason));
        sums = sums.wrapping_add(sum);
    }
    sums.wrapping_add(sums).wrapping_sub(sum)
}

// Three times the digest so far, so that answers exchanged are seen and none is forgotten.
pub fn with(digest: u64, answer: u64) -> u64 {
    digest.wrapping_mul(3).wrapping_add(answer)
}
