// Row 2: the range of a field.
use crate::case::{Case, lent, within};
use crate::line::Output;
use crate::types::{Fault, MOST_ELEMENTS};
use field::scan::scan;
use field::types::Range;
use std::io::Write;

fn shown(range: Range) -> [u64; 3] {
    [range.least, range.greatest, range.width]
}

// h n, h k, n × q of numbers, k marks.
pub(crate) fn replay<W: Write>(
    case: &mut Case<'_>,
    numbers: &mut [u64],
    out: &mut Output<W>,
) -> Result<(), Fault> {
    let number_count = case.count()?;
    let mark_count = case.count()?;
    let numbers = lent(numbers, number_count)?;
    let mark_count = within(mark_count, MOST_ELEMENTS)?;
    case.longs(numbers)?;
    let marks = case.take(mark_count)?;
    out.whole_answer(scan(numbers, marks).map(shown));
    Ok(())
}
