// The scan of a field: first the marks, then the numbers, each in a loop that a compiler does several places at a time.
ghost use Rattle.std.specs.Prelude.{◌≡◌, ◌<◌, length, Ok};
ghost use Rattle.checked.specs.Paper.{number_of};
ghost use Rattle.field.specs.Field.{fault_of};
ghost use Rattle.field.specs.Range.{range_of, scan_of};
ghost use Rattle.field.specs.Answers.{scanned};

use crate::types::Range;
use crate::width::packing_width;
use checked::refusal::{Refusal, RefusedAt};
use little::bytes::all_zero;

// The range of a field. The lists' lengths come first. Most fields have no mark set, which a look over all of them
// shows; only then is the first one looked for. A field is two lists, numbers and marks, as docs/ENTRIES.md says
// and as a host lends them.
pub fn scan(numbers: &[u64], marks: &[u8]) -> Result<Range, RefusedAt>
    ensures { scanned result ≡ scan_of numbers.now marks.now }
{
    if numbers.len() != marks.len() {
        return Err(Refusal::LengthsDiffer.at(0));
    }
    if numbers.is_empty() {
        return Err(Refusal::FieldEmpty.at(0));
    }
    if !all_zero(marks, 0, marks.len()) {
        if let Some(place) = marks.iter().position(|mark| *mark != 0) {
            return Err(fault(marks[place], numbers[place]).at(place as u64));
        }
    }
    Ok(range(numbers))
}

// The least and the greatest number, with the packing width of what lies between them.
fn range(numbers: &[u64]) -> Range
    requires { 0 < length numbers.now }
    ensures { scanned (Ok result) ≡ range_of numbers.now }
{
    let mut least = numbers[0];
    let mut greatest = numbers[0];
    for number in numbers {
        least = least.min(*number);
        greatest = greatest.max(*number);
    }
    Range {
        least,
        greatest,
        width: packing_width(greatest - least),
    }
}

// Why a marked place ends the scan.
fn fault(mark: u8, number: u64) -> Refusal
    requires { 0 < mark }
    ensures { number_of result ≡ fault_of mark number }
{
    if mark == 1 && number == 0 {
        Refusal::Overflowed
    } else {
        Refusal::BadMark
    }
}
