// Rows 10 and 11: a level's least and greatest reading, and the field that a level turns into. A case has readings as the
// bits of floats.
use crate::case::{Case, lent, within};
use crate::line::Output;
use crate::types::{BYTE_BEFORE, Fault, MOST_VALUES, NUMBER_BEFORE};
use level::scan::scan;
use level::types::Extent;
use std::io::Write;
use turn::turn::turn;

// A float's bits. No answer has a NaN, whose bits aren't known.
fn bits_of(x: f32) -> u64 {
    if x.is_nan() {
        return 0;
    }
    u64::from(x.to_bits())
}

fn shown(extent: Extent) -> [u64; 2] {
    [bits_of(extent.least), bits_of(extent.greatest)]
}

// h n, h k, n × w of float bits, k ground marks.
pub(crate) fn replay_scan<W: Write>(case: &mut Case<'_>, out: &mut Output<W>) -> Result<(), Fault> {
    let reading_count = case.count()?;
    let mark_count = case.count()?;
    let mut level = [0f32; MOST_VALUES];
    let level = lent(&mut level, reading_count)?;
    let mark_count = within(mark_count, MOST_VALUES)?;
    case.floats(level)?;
    let grounds = case.take(mark_count)?;
    out.whole_answer(scan(level, grounds).map(shown));
    Ok(())
}

// h n, h k, h i, h j, n × w of float bits, k ground marks; the lent lists have i and j elements.
pub(crate) fn replay_turn<W: Write>(case: &mut Case<'_>, out: &mut Output<W>) -> Result<(), Fault> {
    let reading_count = case.count()?;
    let ground_count = case.count()?;
    let number_count = case.count()?;
    let mark_count = case.count()?;
    let mut level = [0f32; MOST_VALUES];
    let mut numbers = [NUMBER_BEFORE; MOST_VALUES];
    let mut marks = [BYTE_BEFORE; MOST_VALUES];
    let level = lent(&mut level, reading_count)?;
    let ground_count = within(ground_count, MOST_VALUES)?;
    let numbers = lent(&mut numbers, number_count)?;
    let marks = lent(&mut marks, mark_count)?;
    case.floats(level)?;
    let grounds = case.take(ground_count)?;
    let answer = turn(level, grounds, numbers, marks);
    out.answer(answer.map(|()| []));
    out.further(numbers);
    out.further(marks);
    out.end();
    Ok(())
}
