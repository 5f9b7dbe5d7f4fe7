// Where a level has a fault, and which.
ghost use Rattle.std.specs.Prelude.{◌≡◌, ◌<◌, length, MatchOption};
ghost use Rattle.places.specs.Faults.{first_fault, NoFaultBefore};
ghost use Rattle.checked.specs.Paper.{number_of};
ghost use Rattle.reading.specs.Level.{fault_of, fault_at};
ghost use Rattle.level.specs.Scan.{refused};

use checked::refusal::{Refusal, RefusedAt};
use reading::seen::seen;
use reading::types::Reading;

// The mark of a reading under the ground; above it there is none.
const GROUND: u8 = 1;

// Why a place ends the scan: by its mark first.
fn fault(x: f32, mark: u8) -> Option<Refusal>
    ensures { MatchOption result (fault_of x mark ≡ 0) (λ r. fault_of x mark ≡ number_of r) }
{
    if GROUND < mark {
        return Some(Refusal::BadMark);
    }
    match seen(x, mark) {
        Reading::Air(_) | Reading::Ground(_) => None,
        Reading::Unusable => Some(Refusal::UnusableReading),
    }
}

// The refusal at the earliest place with a fault, which isn't before place `from`. The turning has the same walk
// over its own faults; a line there says why. It goes by places, since it begins at a place of both lists.
pub(crate) fn refuse(level: &[f32], grounds: &[u8], from: usize) -> RefusedAt
    requires level_len { length level.now ≡ length grounds.now }
    requires no_fault_before { NoFaultBefore (fault_at level.now grounds.now) from }
    requires level_in_bounds { first_fault (fault_at level.now grounds.now) (length level.now) < length level.now }
    ensures { refused (number_of result.refusal) result.place ≡
        refused
        (fault_at level.now grounds.now
        (first_fault (fault_at level.now grounds.now) (length level.now)))
        (first_fault (fault_at level.now grounds.now) (length level.now)) }
{
    for place in from..level.len() {
        if let Some(refusal) = fault(level[place], grounds[place]) {
            return refusal.at(place as u64);
        }
    }
    unreachable!()
}
