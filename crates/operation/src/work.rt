// An operation from a phase on, as far as the allowance brings it.
ghost use Rattle.std.specs.Prelude.{◌≡◌, ℕ};
ghost use Rattle.steps.specs.declared.types.Phase.TheVariants.{InLogarithm};
ghost use Rattle.steps.specs.Steps.{within};
ghost use Rattle.operation.specs.Work.{reach, reach_of, work_of};

use crate::types::{Progress, Reached};
use crate::within::{logarithm_on, power_on};
use steps::types::{Logarithm, Phase};

// No step is taken.
fn stays(phase: Phase, from: u64) -> Reached
    ensures { reach_of result ≡ reach (within phase) from }
{
    Reached {
        progress: Progress::Within(phase),
        taken: from,
    }
}

// A logarithm's further steps. One that no operation comes to, which could divide by 0 or count too far, takes none.
fn sound_logarithm_on(q: Logarithm, from: u64, allowance: u64) -> Reached
    ensures { (M : ℕ) → reach_of result ≡ work_of M (InLogarithm q) from allowance }
{
    if q.base < 2 || q.left < q.base || u64::MAX - q.left < q.count {
        return stays(Phase::InLogarithm(q), from);
    }
    logarithm_on(q, from, allowance)
}

// The further steps of an operation in this phase, after `from` steps of the run: a power's or a logarithm's, until it
// has its value or the allowance is spent. Between items there is none to take. `from` and the allowance stay two numbers:
// docs/ENTRIES.md has them so.
pub fn work(limit: u64, phase: Phase, from: u64, allowance: u64) -> Reached
    ensures { reach_of result ≡ work_of limit phase from allowance }
{
    match phase {
        Phase::Between => stays(phase, from),
        Phase::InPower(p) => power_on(limit, p, from, allowance),
        Phase::InLogarithm(q) => sound_logarithm_on(q, from, allowance),
    }
}
