// Row 12: a row of single operations. The lent lists are shown as they stand afterwards.
use crate::case::{Case, lent, within};
use crate::line::Output;
use crate::types::{BYTE_BEFORE, Fault, MOST_VALUES, NUMBER_BEFORE};
use rows::row::row;
use rows::types::code;
use std::io::Write;

// h n, h k, h j, h a, h b, h c, n kinds, k × q of lefts, j × q of rights; the lent lists have a numbers, b marks and c
// codes.
pub(crate) fn replay<W: Write>(case: &mut Case<'_>, out: &mut Output<W>) -> Result<(), Fault> {
    let kind_count = case.count()?;
    let left_count = case.count()?;
    let right_count = case.count()?;
    let number_count = case.count()?;
    let mark_count = case.count()?;
    let code_count = case.count()?;
    let mut lefts = [0u64; MOST_VALUES];
    let mut rights = [0u64; MOST_VALUES];
    let mut numbers = [NUMBER_BEFORE; MOST_VALUES];
    let mut marks = [BYTE_BEFORE; MOST_VALUES];
    let mut codes = [BYTE_BEFORE; MOST_VALUES];
    let kind_count = within(kind_count, MOST_VALUES)?;
    let lefts = lent(&mut lefts, left_count)?;
    let rights = lent(&mut rights, right_count)?;
    let numbers = lent(&mut numbers, number_count)?;
    let marks = lent(&mut marks, mark_count)?;
    let codes = lent(&mut codes, code_count)?;
    let kinds = case.take(kind_count)?;
    case.longs(lefts)?;
    case.longs(rights)?;
    let answer = row(kinds, lefts, rights, numbers, marks, codes);
    out.start(&[u64::from(code(answer)), 0]);
    out.further(numbers);
    out.further(marks);
    out.further(codes);
    out.end();
    Ok(())
}
