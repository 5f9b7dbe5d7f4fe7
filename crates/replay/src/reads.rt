// Row 3: a block is read into two lent lists, which are shown as they stand afterwards.
use crate::case::{Case, lent, within};
use crate::line::Output;
use crate::types::{Fault, MOST_ELEMENTS, NUMBER_BEFORE};
use block::read::read;
use block::types::Head;
use std::io::Write;

// What stands in the lent list of marks before the reading. No block's mark is 9.
const MARK_BEFORE: u8 = 9;

fn shown(head: Head) -> [u64; 2] {
    [u64::from(head.number), head.count as u64]
}

// h n, h k, h j, n bytes of the block; the lent lists have k and j elements.
pub(crate) fn replay<W: Write>(
    case: &mut Case<'_>,
    numbers: &mut [u64],
    marks: &mut [u8],
    out: &mut Output<W>,
) -> Result<(), Fault> {
    let byte_count = case.count()?;
    let number_count = case.count()?;
    let mark_count = case.count()?;
    let byte_count = within(byte_count, MOST_ELEMENTS)?;
    let numbers = lent(numbers, number_count)?;
    let marks = lent(marks, mark_count)?;
    let block = case.take(byte_count)?;
    numbers.fill(NUMBER_BEFORE);
    marks.fill(MARK_BEFORE);
    let answer = read(block, numbers, marks);
    out.answer(answer.map(shown).map_err(|refusal| refusal.at(0)));
    out.further(numbers);
    out.further(marks);
    out.end();
    Ok(())
}
