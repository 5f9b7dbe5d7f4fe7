// A level turned into a field: every place is looked at before the first is written.
ghost use Rattle.std.specs.Prelude.{◌≡◌, true, ◌≤◌, length};
ghost use Rattle.places.specs.Places.{every, over};
ghost use Rattle.turn.specs.Wholes.{is_whole_at, value_at};
ghost use Rattle.turn.specs.Turning.{turning_of, numbers_after, marks_after};
ghost use Rattle.turn.specs.Answers.{turned};

use crate::faults::refuse;
use crate::wholes::{all_whole, value};
use checked::refusal::{Refusal, RefusedAt};
use reading::marks::all_marked;

// Each reading's value. It is stored by its place, since `numbers` may be longer and is promised place by place.
fn put_values(level: &[f32], numbers: &mut [u64])
    requires level_in_bounds { length level.now ≤ length numbers.old }
    requires level_value { every (is_whole_at level.now) (length level.now) ≡ true }
    ensures { numbers.new ≡ over (value_at level.now) (length level.now) numbers.old }
{
    for (i, x) in level.iter().enumerate() {
        numbers[i] = value(*x);
    }
}

// As many marks of 0.
fn put_unmarked(count: usize, marks: &mut [u8])
    requires { count ≤ length marks.old }
    ensures { marks.new ≡ over (λ i. 0) count marks.old }
{
    marks[..count].fill(0);
}

// The field whose numbers are the level's readings, all marks 0. The lists' lengths come first, then the room, then the
// places; the lists stay on refusal. Level and field are two lists each, as a host lends them.
pub fn turn(
    level: &[f32],
    grounds: &[u8],
    numbers: &mut [u64],
    marks: &mut [u8],
) -> Result<(), RefusedAt>
    ensures result_value { turned result ≡ turning_of level.now grounds.now numbers.old marks.old }
    ensures numbers_new { numbers.new ≡
        numbers_after level.now grounds.now numbers.old marks.old }
    ensures marks_new { marks.new ≡
        marks_after level.now grounds.now numbers.old marks.old }
{
    if level.len() != grounds.len() {
        return Err(Refusal::LengthsDiffer.at(0));
    }
    if level.is_empty() {
        return Err(Refusal::FieldEmpty.at(0));
    }
    if numbers.len() < level.len() || marks.len() < level.len() {
        return Err(Refusal::ListTooShort.at(0));
    }
    if !all_marked(grounds) || !all_whole(level) {
        return Err(refuse(level, grounds));
    }
    put_values(level, numbers);
    put_unmarked(level.len(), marks);
    Ok(())
}
