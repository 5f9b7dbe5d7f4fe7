// Row 4: the first overflowed value of a run of blocks.
use crate::case::{Case, within};
use crate::line::Output;
use crate::types::{Fault, MOST_BYTES};
use search::search::search;
use search::types::Spot;
use std::io::Write;

fn shown(found: Option<Spot>) -> [u64; 3] {
    match found {
        Some(Spot { position, place }) => [1, position, place],
        None => [0; 3],
    }
}

// w n, n bytes.
pub(crate) fn replay<W: Write>(case: &mut Case<'_>, out: &mut Output<W>) -> Result<(), Fault> {
    let byte_count = within(case.word()? as usize, MOST_BYTES)?;
    let run = case.take(byte_count)?;
    out.whole_answer(search(run).map(shown));
    Ok(())
}
