// The block writer: a field goes to a lent run of blocks, and nothing is written where the answer is a refusal.
ghost use Rattle.std.specs.Prelude.{◌≡◌, ◌+◌, ◌*◌, ◌^◌, ◌≤◌, ◌<◌, length};
ghost use Rattle.places.specs.Places.{overlaid};
ghost use Rattle.layout.specs.Editions.{block_length, one};
ghost use Rattle.written.specs.Run.{blocks_for, run_for};
ghost use Rattle.written.specs.Writing.{writing_of, run_after};
ghost use Rattle.write.specs.Answers.{writing};

use checked::refusal::{Refusal, RefusedAt};
use field::bad_marks::first_bad;
use lay::one::lay;
use layout::{BLOCK_LENGTH, one};

// One more than the largest block number.
const BLOCK_NUMBERS: u64 = 4294967296;

// The field's blocks, one by one; the last has what is left. The run is cut by hand: of `chunks_exact_mut`, which was
// tried, std doesn't say what the slice holds afterwards. Numbers and marks are cut by places as well, so that one
// position tells all four.
fn lay_all(numbers: &[u64], marks: &[u8], first: u32, blocks: usize, run: &mut [u8])
    requires { (length marks.now ≡ length numbers.now)
        × (blocks_for one (length numbers.now) ≡ blocks)
        × (block_length * blocks ≤ length run.old)
        × (first + blocks ≤ 2 ^ 32) }
    ensures { run.new ≡ overlaid (run_for one first numbers.now marks.now) run.old }
{
    for position in 0..blocks {
        let at = one::MOST * position;
        let end = (at + one::MOST).min(numbers.len());
        let from = BLOCK_LENGTH * position;
        let to = from + BLOCK_LENGTH;
        lay(
            first + position as u32,
            &numbers[at..end],
            &marks[at..end],
            &mut run[from..to],
        );
    }
}

// The length written, or 6, 14, 15 at its place, 19 or 21. A field is two lists, as a host lends them.
pub fn write(numbers: &[u64], marks: &[u8], first: u32, run: &mut [u8]) -> Result<u64, RefusedAt>
    ensures result_value { writing result ≡ writing_of one first numbers.now marks.now run.old }
    ensures run_new { run.new ≡ run_after one first numbers.now marks.now run.old }
{
    let count = numbers.len();
    if count != marks.len() {
        return Err(Refusal::LengthsDiffer.at(0));
    }
    if count == 0 {
        return Err(Refusal::FieldEmpty.at(0));
    }
    let blocks = (count - 1) / one::MOST + 1;
    // So many block numbers there are from the first on.
    let left = BLOCK_NUMBERS - first as u64;
    // Where no mark is bad, `first_bad` gives how many there are.
    let place = first_bad(numbers, marks);
    if place < count {
        return Err(Refusal::BadMark.at(place as u64));
    }
    if run.len() / BLOCK_LENGTH < blocks {
        return Err(Refusal::ListTooShort.at(0));
    }
    if left < blocks as u64 {
        return Err(Refusal::BlockNumberTooLarge.at(0));
    }
    lay_all(numbers, marks, first, blocks, run);
    let length = BLOCK_LENGTH * blocks;
    Ok(length as u64)
}
