// The marks of a field by themselves, for whoever takes overflowed values like the others.
ghost use Rattle.std.specs.Prelude.{◌≡◌, cond, ◌≤◌, eqb, length};
ghost use Rattle.places.specs.Places.{every};
ghost use Rattle.places.specs.Faults.{first_fault};
ghost use Rattle.field.specs.Field.{well_marked, well_marked_at, mark_fault_at};

use little::bytes::all_zero;

// The number of a marked place, and 0 of any other.
fn held(mark: u8, number: u64) -> u64
    ensures { result ≡ cond (eqb mark 0) 0 number }
{
    if mark == 0 { 0 } else { number }
}

// A mark of 0, or of 1 with the number 0.
fn well_marked(mark: u8, number: u64) -> bool
    ensures { result ≡ well_marked mark number }
{
    mark == 0 || mark == 1 && number == 0
}

// Whether no place has a bad mark. There is no early exit, so that a compiler looks at several places at a time.
fn all_well_marked(numbers: &[u64], marks: &[u8]) -> bool
    requires { length numbers.now ≤ length marks.now }
    ensures { result ≡ every (well_marked_at numbers.now marks.now) (length numbers.now) }
{
    let mut most: u8 = 0;
    let mut any: u64 = 0;
    for (number, mark) in numbers.iter().zip(marks) {
        most = most.max(*mark);
        any |= held(*mark, *number);
    }
    most <= 1 && any == 0
}

// The earliest place with a bad mark, or how many numbers there are, looked for place by place. The count stands
// for none, as `first_fault` of the definitions has it.
fn walk(numbers: &[u64], marks: &[u8]) -> usize
    ensures { result ≡ first_fault (mark_fault_at numbers.now marks.now) (length numbers.now) }
{
    let mut places = numbers.iter().zip(marks);
    places
        .position(|(number, mark)| !well_marked(*mark, *number))
        .unwrap_or(numbers.len())
}

// The earliest place with a bad mark, or how many numbers there are; a number without a mark has none. Most fields have
// no mark set, and nearly all others no bad one: each is told by a look over all places, and only then are they walked.
// The count stands for none, as docs/ENTRIES.md says, so this is no `Option`.
pub fn first_bad(numbers: &[u64], marks: &[u8]) -> usize
    ensures { result ≡ first_fault (mark_fault_at numbers.now marks.now) (length numbers.now) }
{
    if all_zero(marks, 0, marks.len()) {
        return numbers.len();
    }
    if numbers.len() <= marks.len() && all_well_marked(numbers, marks) {
        return numbers.len();
    }
    walk(numbers, marks)
}
