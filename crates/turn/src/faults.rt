// Where a level can't be turned into a field, and why.
ghost use Rattle.std.specs.Prelude.{◌≡◌, ◌<◌, length, MatchOption};
ghost use Rattle.places.specs.Faults.{first_fault};
ghost use Rattle.checked.specs.Paper.{number_of};
ghost use Rattle.turn.specs.Turning.{fault_of, fault_at, refused};

use crate::wholes::whole;
use checked::refusal::{Refusal, RefusedAt};
use reading::seen::seen;
use reading::types::Reading;

// Why a place stops the turning: by its mark first, then as a reading.
fn fault(x: f32, mark: u8) -> Option<Refusal>
    ensures { MatchOption result (fault_of x mark ≡ 0) (λ r. fault_of x mark ≡ number_of r) }
{
    if 1 < mark {
        return Some(Refusal::BadMark);
    }
    if whole(x) {
        return None;
    }
    match seen(x, mark) {
        Reading::Air(_) | Reading::Ground(_) => Some(Refusal::NotWhole),
        Reading::Unusable => Some(Refusal::UnusableReading),
    }
}

// The refusal at the earliest place with a fault. The scan has the same walk over its own faults: what a walk promises
// is said of its faults, so that one over any would be told by its caller what both say here. The mark goes by the
// place, which the answer needs as well.
pub(crate) fn refuse(level: &[f32], grounds: &[u8]) -> RefusedAt
    requires level_len { length level.now ≡ length grounds.now }
    requires level_in_bounds { first_fault (fault_at level.now grounds.now) (length level.now) < length level.now }
    ensures { refused (number_of result.refusal) result.place ≡
        refused
        (fault_at level.now grounds.now
        (first_fault (fault_at level.now grounds.now) (length level.now)))
        (first_fault (fault_at level.now grounds.now) (length level.now)) }
{
    for (place, x) in level.iter().enumerate() {
        if let Some(refusal) = fault(*x, grounds[place]) {
            return refusal.at(place as u64);
        }
    }
    unreachable!()
}
