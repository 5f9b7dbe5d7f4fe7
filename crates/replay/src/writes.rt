// Row 9: a field is written to a lent run of blocks, which is shown as it stands afterwards.
use crate::case::{Case, lent, within};
use crate::line::Output;
use crate::types::{BYTE_BEFORE, Fault, MOST_BYTES, MOST_VALUES};
use std::io::Write;
use write::write::write;

// The edition that there is.
const EDITION: u8 = 1;

// b edition, w first block number, h n, h k, w j, n × q of numbers, k marks; the lent run has j bytes.
pub(crate) fn replay<W: Write>(case: &mut Case<'_>, out: &mut Output<W>) -> Result<(), Fault> {
    let edition = case.byte()?;
    let first = case.word()?;
    let number_count = case.count()?;
    let mark_count = case.count()?;
    let byte_count = case.word()? as usize;
    if edition != EDITION {
        return Err(Fault::NotAllowed);
    }
    let mut numbers = [0u64; MOST_VALUES];
    let mut run = [BYTE_BEFORE; MOST_BYTES];
    let numbers = lent(&mut numbers, number_count)?;
    let mark_count = within(mark_count, MOST_VALUES)?;
    let run = lent(&mut run, byte_count)?;
    case.longs(numbers)?;
    let marks = case.take(mark_count)?;
    let answer = write(numbers, marks, first, run);
    out.answer(answer.map(|length| [length]));
    out.further(run);
    out.end();
    Ok(())
}
