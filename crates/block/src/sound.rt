// Whether a block is sound: its length, its check, its layout, in this order.
ghost use Rattle.std.specs.Prelude.{◌≡◌, ◌+◌, ◌*◌, ◌≤◌, ◌<◌, length};
ghost use Rattle.places.specs.Places.{every};
ghost use Rattle.layout.specs.Editions.{block_length, marks_at, one};
ghost use Rattle.layout.specs.Layout.{place_well_marked, has_layout_as};
ghost use Rattle.block.specs.Answers.{looked, sound_of};
ghost use Rattle.block.specs.Marks.{marks_fine, no_marks};

use crate::bytes::{long_at, word_at};
use checked::refusal::Refusal;
use checksum::sum::check_sum;
use layout::{BLOCK_LENGTH, CHECK_AT, HEAD_AT, MARKS_AT, one};
use little::bytes::all_zero;

// A mark of 0, or of 1 with the number 0, where the numbers begin at place `first`. Block, `first` and `count` are no type of
// their own: one that holds what `marks_fine` and `copy_numbers` ask would be made twice and taken apart in each of them.
// `first` stays a parameter, since the definitions speak of any edition.
fn well_marked(b: &[u8; BLOCK_LENGTH], first: usize, i: usize) -> bool
    requires { first + 8 * i < marks_at }
    ensures { result ≡ place_well_marked first b.now i }
{
    let mark = b[MARKS_AT + i];
    mark == 0 || mark == 1 && long_at(b, first + 8 * i) == 0
}

// The marks in use, one by one, up to the first bad one.
fn all_well_marked(b: &[u8; BLOCK_LENGTH], first: usize, count: usize) -> bool
    requires { first + 8 * count ≤ marks_at }
    ensures { result ≡ every (place_well_marked first b.now) count }
{
    (0..count).all(|i| well_marked(b, first, i))
}

// The marks, used and unused, and the zeros after them. Most blocks have no mark at all, which one look over all of
// them shows.
fn marks_fine(b: &[u8; BLOCK_LENGTH], first: usize, count: usize) -> bool
    requires { first + 8 * count ≤ marks_at }
    ensures { result ≡ marks_fine first b.now count }
{
    all_zero(b, MARKS_AT, CHECK_AT)
        || all_zero(b, MARKS_AT + count, CHECK_AT) && all_well_marked(b, first, count)
}

// The layout of edition 1.
fn has_layout_one(b: &[u8; BLOCK_LENGTH]) -> bool
    ensures { result ≡ has_layout_as one b.now }
{
    if b[5] != one::TAG {
        return false;
    }
    let count = b[4] as usize;
    if one::MOST < count {
        return false;
    }
    if !all_zero(b, HEAD_AT, one::FIRST) {
        return false;
    }
    if !all_zero(b, one::FIRST + 8 * count, MARKS_AT) {
        return false;
    }
    marks_fine(b, one::FIRST, count)
}

// Sound, or 16, 17 or 18.
pub fn sound(block: &[u8]) -> Result<(), Refusal>
    ensures { looked result ≡ sound_of block.now }
{
    let Ok(block) = <&[u8; BLOCK_LENGTH]>::try_from(block) else {
        return Err(Refusal::BlockLength);
    };
    if word_at(block, CHECK_AT) != check_sum(block) {
        return Err(Refusal::WrongCheck);
    }
    if !has_layout_one(block) {
        return Err(Refusal::BadLayout);
    }
    Ok(())
}

// Whether a block has no mark at all, which is soon told; a list of another length is no block.
pub fn unmarked(block: &[u8]) -> bool
    ensures { result ≡ no_marks block.now }
{
    block.len() == BLOCK_LENGTH && all_zero(block, MARKS_AT, one::PAST)
}
