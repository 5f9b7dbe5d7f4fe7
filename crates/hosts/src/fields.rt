// The scan of a field.
ghost use Rattle.std.specs.Prelude.{◌≡◌};
ghost use Rattle.field.specs.Range.{scan_of};
ghost use Rattle.entry.specs.Entry.{answer_code, answer_list};
ghost use Rattle.hosts.specs.Answers.{of_scan};

use crate::answer::put;
use entry::room::too_short;
use field::scan::scan;

// The refusal's place, or 0 with least, greatest and packing width.
const RANGE_LENGTH: usize = 4;

// The range of a field that has no overflowed place; on a refusal its place, and zeros.
pub fn razovinto_scan(numbers: &[u64], marks: &[u8], answer: &mut [u64]) -> u32
    ensures value { result ≡ answer_code (of_scan (scan_of numbers.now marks.now)) answer.old }
    ensures answer_new { answer.new ≡
        answer_list (of_scan (scan_of numbers.now marks.now)) answer.old }
{
    if answer.len() < RANGE_LENGTH {
        return too_short();
    }
    match scan(numbers, marks) {
        Ok(range) => {
            put(answer, [0, range.least, range.greatest, range.width]);
            0
        }
        Err(refused) => {
            put(answer, [refused.place, 0, 0, 0]);
            refused.refusal.number()
        }
    }
}
