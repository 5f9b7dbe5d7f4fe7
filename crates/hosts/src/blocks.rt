// Blocks and runs of blocks.
ghost use Rattle.std.specs.Prelude.{◌≡◌};
ghost use Rattle.layout.specs.Editions.{one};
ghost use Rattle.layout.specs.Reading.{reading_of};
ghost use Rattle.block.specs.Answers.{sound_of};
ghost use Rattle.search.specs.Search.{search_of};
ghost use Rattle.written.specs.Writing.{writing_of};
ghost use Rattle.entry.specs.Entry.{answer_code, answer_list};
ghost use Rattle.hosts.specs.Answers.{of_reading, of_writing, of_search, numbers_beside, marks_beside, run_beside};

use crate::answer::put;
use block::read::read;
use block::sound::sound;
use entry::room::too_short;
use search::search::search;
use write::write::write;

// The refusal's place, which is 0, with the block's number and count.
const BLOCK_ANSWER_LENGTH: usize = 3;

// The refusal's place, or 0 with the length written.
const WRITTEN_LENGTH: usize = 2;

// The refusal's place, or 0 with whether a value was found, its block's position and its place there.
const FOUND_LENGTH: usize = 4;

// 0 where the block is sound, or why it isn't. The place would always be 0.
pub fn razovinto_sound(block: &[u8]) -> u32
    ensures { result ≡ (sound_of block.now).code }
{
    match sound(block) {
        Ok(()) => 0,
        Err(refusal) => refusal.number(),
    }
}

// The block's values go into the two lists, which stay on every refusal: where there is no room for the answer, the
// block isn't looked at.
pub fn razovinto_read(
    block: &[u8],
    numbers: &mut [u64],
    marks: &mut [u8],
    answer: &mut [u64],
) -> u32
    ensures value { result ≡
        answer_code (of_reading (reading_of block.now numbers.old marks.old))
        answer.old }
    ensures answer_new { answer.new ≡
        answer_list (of_reading (reading_of block.now numbers.old marks.old))
        answer.old }
    ensures numbers_new { numbers.new ≡
        numbers_beside block.now numbers.old marks.old answer.old }
    ensures marks_new { marks.new ≡
        marks_beside block.now numbers.old marks.old answer.old }
{
    if answer.len() < BLOCK_ANSWER_LENGTH {
        return too_short();
    }
    match read(block, numbers, marks) {
        Ok(head) => {
            put(answer, [0, u64::from(head.number), head.count as u64]);
            0
        }
        Err(refusal) => {
            put(answer, [0, 0, 0]);
            refusal.number()
        }
    }
}

// The field's blocks go into the run, which stays on every refusal: where there is no room for the answer, the field
// isn't looked at.
pub fn razovinto_write(
    first: u32,
    numbers: &[u64],
    marks: &[u8],
    run: &mut [u8],
    answer: &mut [u64],
) -> u32
    ensures value { result ≡
        answer_code (of_writing (writing_of one first numbers.now marks.now run.old))
        answer.old }
    ensures answer_new { answer.new ≡
        answer_list (of_writing (writing_of one first numbers.now marks.now run.old))
        answer.old }
    ensures run_new { run.new ≡
        run_beside first numbers.now marks.now run.old answer.old }
{
    if answer.len() < WRITTEN_LENGTH {
        return too_short();
    }
    match write(numbers, marks, first, run) {
        Ok(length) => {
            put(answer, [0, length]);
            0
        }
        Err(refused) => {
            put(answer, [refused.place, 0]);
            refused.refusal.number()
        }
    }
}

// The first overflowed value of a run of blocks, or none; on a refusal the position of the bad block.
pub fn razovinto_search(run: &[u8], answer: &mut [u64]) -> u32
    ensures value { result ≡ answer_code (of_search (search_of run.now)) answer.old }
    ensures answer_new { answer.new ≡ answer_list (of_search (search_of run.now)) answer.old }
{
    if answer.len() < FOUND_LENGTH {
        return too_short();
    }
    match search(run) {
        Ok(Some(spot)) => {
            put(answer, [0, 1, spot.position, spot.place]);
            0
        }
        Ok(None) => {
            put(answer, [0, 0, 0, 0]);
            0
        }
        Err(refused) => {
            put(answer, [refused.place, 0, 0, 0]);
            refused.refusal.number()
        }
    }
}
