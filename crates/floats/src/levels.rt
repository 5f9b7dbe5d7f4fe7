// Levels of raw floats.
ghost use Rattle.std.specs.Prelude.{◌≡◌};
ghost use Rattle.level.specs.Scan.{scan_of};
ghost use Rattle.turn.specs.Turning.{turning_of};
ghost use Rattle.entry.specs.Entry.{answer_code, answer_list};
ghost use Rattle.floats.specs.Levels.{bits_in, of_level_scan, scan_for, extent_beside, of_turning, turned_beside, unmarked_beside};

use entry::room::too_short;
use level::scan::scan;
use turn::turn::turn;

// The refusal's place, or 0. Each entry writes it, since its other numbers go into other lists.
const PLACE_LENGTH: usize = 1;

// The least and the greatest reading.
const EXTENT_LENGTH: usize = 2;

// The least and the greatest reading go into the list `extent`, which stays on every refusal: where it has no room, or
// the answer has none, the level isn't looked at.
pub fn razovinto_level_scan(
    level: &[f32],
    grounds: &[u8],
    extent: &mut [f32],
    answer: &mut [u64],
) -> u32
    ensures value { result ≡
        answer_code (of_level_scan (scan_for extent.old (scan_of level.now grounds.now)))
        answer.old }
    ensures answer_new { answer.new ≡
        answer_list (of_level_scan (scan_for extent.old (scan_of level.now grounds.now)))
        answer.old }
    ensures extent_new { bits_in extent.new ≡
        extent_beside level.now grounds.now extent.old answer.old }
{
    if answer.len() < PLACE_LENGTH {
        return too_short();
    }
    if extent.len() < EXTENT_LENGTH {
        answer[0] = 0;
        return too_short();
    }
    match scan(level, grounds) {
        Ok(found) => {
            extent[0] = found.least;
            extent[1] = found.greatest;
            answer[0] = 0;
            0
        }
        Err(refused) => {
            answer[0] = refused.place;
            refused.refusal.number()
        }
    }
}

// The field goes into the two lists, which stay on every refusal: where there is no room for the answer, the level isn't
// looked at.
pub fn razovinto_level_to_field(
    level: &[f32],
    grounds: &[u8],
    numbers: &mut [u64],
    marks: &mut [u8],
    answer: &mut [u64],
) -> u32
    ensures value { result ≡
        answer_code
        (of_turning
        (turning_of level.now grounds.now numbers.old marks.old))
        answer.old }
    ensures answer_new { answer.new ≡
        answer_list
        (of_turning
        (turning_of level.now grounds.now numbers.old marks.old))
        answer.old }
    ensures numbers_new { numbers.new ≡
        turned_beside level.now grounds.now numbers.old marks.old
        answer.old }
    ensures marks_new { marks.new ≡
        unmarked_beside level.now grounds.now numbers.old marks.old
        answer.old }
{
    if answer.len() < PLACE_LENGTH {
        return too_short();
    }
    match turn(level, grounds, numbers, marks) {
        Ok(()) => {
            answer[0] = 0;
            0
        }
        Err(refused) => {
            answer[0] = refused.place;
            refused.refusal.number()
        }
    }
}
