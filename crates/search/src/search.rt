// The first overflowed value of a run of blocks. Each block is checked whole, as the reader does, before its marks
// count.
ghost use Rattle.std.specs.Prelude.{◌≡◌, ◌%◌, length};
ghost use Rattle.layout.specs.Editions.{block_length};
ghost use Rattle.search.specs.Search.{search_of};
ghost use Rattle.search.specs.Answers.{searched};

use crate::types::Spot;
use block::sound::{sound, unmarked};
use checked::refusal::{Refusal, RefusedAt};
use layout::{BLOCK_LENGTH, MARKS_AT};

// The blocks from the first on, and in each one its marks: the first mark that is set leaves both loops.
// docs/DECISIONS.md names this form: an outer loop, an inner one, and an exit by label with the found place.
fn among(run: &[u8]) -> Result<Option<Spot>, RefusedAt>
    requires { length run.now % block_length ≡ 0 }
    ensures { searched result ≡ search_of run.now }
{
    let mut found = None;
    'search: for (position, block) in run.chunks_exact(BLOCK_LENGTH).enumerate() {
        if let Err(refusal) = sound(block) {
            return Err(refusal.at(position as u64));
        }
        if !unmarked(block) {
            let count = block[4] as usize;
            for place in 0..count {
                if block[MARKS_AT + place] == 1 {
                    found = Some(Spot {
                        position: position as u64,
                        place: place as u64,
                    });
                    break 'search;
                }
            }
        }
    }
    Ok(found)
}

// The first overflowed value, or none, or the first bad block reached; 16 where the run isn't whole blocks.
pub fn search(run: &[u8]) -> Result<Option<Spot>, RefusedAt>
    ensures { searched result ≡ search_of run.now }
{
    if run.len() % BLOCK_LENGTH != 0 {
        return Err(Refusal::BlockLength.at(0));
    }
    among(run)
}
