// A power and a logarithm: how each enters its phase, and its further steps, in a loop of its own on what the phase
// carries.
ghost use Rattle.std.specs.Prelude.{◌≡◌, ℕ, ◌-◌};
ghost use Rattle.steps.specs.declared.types.Phase.TheVariants.{InPower, InLogarithm};
ghost use Rattle.steps.specs.Steps as steps;
ghost use Rattle.operation.specs.Work.{progress_of, Sound, gone_on, reach_of};

use crate::types::{Progress, Reached};
use checked::limited::mul_checked;
use checked::types::Checked64;
use steps::types::{Logarithm, Phase, Power};

// A power ends at exponent 0 with its first value; with any other it enters its phase.
pub(crate) fn powering(first: Checked64, second: Checked64, exponent: u64) -> Progress
    ensures { progress_of result ≡ steps.powering first second exponent }
{
    if exponent == 0 {
        return Progress::Value(first);
    }
    Progress::Within(Phase::InPower(Power {
        first,
        second,
        exponent,
    }))
}

// A logarithm ends with its count where what is left is below the base; from the base up it enters its phase.
pub(crate) fn dividing(base: u64, left: u64, count: u64) -> Progress
    ensures { progress_of result ≡ steps.dividing base left count }
{
    if base <= left {
        return Progress::Within(Phase::InLogarithm(Logarithm { base, left, count }));
    }
    Progress::Value(Checked64::Fits(count))
}

// A power's further steps. Each takes a binary digit of the exponent, from the last one up; the square after the first
// digit, which nobody sees, is not worked out. The loop counts steps, and no index: the count is part of the answer, and stays
// `from` where no step is left to take, so that a `for` would need it beside.
pub(crate) fn power_on(limit: u64, p: Power, from: u64, allowance: u64) -> Reached
    ensures { reach_of result ≡ gone_on limit (allowance - from) from (steps.within (InPower p)) }
{
    let mut first = p.first;
    let mut second = p.second;
    let mut exponent = p.exponent;
    let mut taken = from;
    while taken < allowance {
        taken = taken + 1;
        if exponent % 2 == 1 {
            first = mul_checked(limit, first, second);
        }
        if exponent < 2 {
            return Reached {
                progress: Progress::Value(first),
                taken,
            };
        }
        second = mul_checked(limit, second, second);
        exponent = exponent / 2;
    }
    Reached {
        progress: Progress::Within(Phase::InPower(Power {
            first,
            second,
            exponent,
        })),
        taken,
    }
}

// A logarithm's further steps. Each divides by the base, and counts one more. Its loop counts steps as a power's does.
pub(crate) fn logarithm_on(q: Logarithm, from: u64, allowance: u64) -> Reached
    requires { Sound q }
    ensures { (M : ℕ) → reach_of result ≡ gone_on M (allowance - from) from (steps.within (InLogarithm q)) }
{
    let base = q.base;
    let mut left = q.left;
    let mut count = q.count;
    let mut taken = from;
    while taken < allowance {
        taken = taken + 1;
        left = left / base;
        count = count + 1;
        if left < base {
            return Reached {
                progress: Progress::Value(Checked64::Fits(count)),
                taken,
            };
        }
    }
    Reached {
        progress: Progress::Within(Phase::InLogarithm(Logarithm { base, left, count })),
        taken,
    }
}
