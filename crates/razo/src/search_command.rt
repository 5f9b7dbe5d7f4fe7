// The search of a file of blocks, part by part.
use crate::file::{Filled, PART, count_on, fill, in_whole_blocks};
use crate::line::Digits;
use crate::reason::Reason;
use crate::status::{Status, Stop};
use crate::system::Streams;
use crate::text::{Blocks, Report};
use layout::BLOCK_LENGTH;
use search::search::search;
use search::types::Spot;
use std::io;
use std::io::Read;

// How many blocks lie behind after a run of them, with so many before it. The search ends with what is found.
// `report` and `behind` stay arguments: a struct as `Listing` would have nothing but this number.
fn search_run<R: Streams>(report: &Report<'_, R>, run: &[u8], behind: u64) -> Result<u64, Stop> {
    match search(run) {
        Ok(None) => Ok(count_on(behind, (run.len() / BLOCK_LENGTH) as u64)),
        Ok(Some(Spot { position, place })) => {
            let block = Digits(count_on(behind, position));
            let place = Digits(place);
            report.say(format_args!("overflowed: block {block}, place {place}\n"))?;
            Err(Stop::Ended(Status::Found))
        }
        Err(refused) => {
            let block = Digits(count_on(behind, refused.place));
            let reason = Reason(refused.refusal);
            report.say(format_args!("bad block {block}: {reason}\n"))?;
            Err(Stop::Ended(Status::Found))
        }
    }
}

// The last part. What is left over after the last whole block is a run of its own, and a bad one unless it is empty.
fn search_last<R: Streams>(
    report: &Report<'_, R>,
    bytes: &[u8],
    behind: u64,
) -> Result<Status, Stop> {
    let (whole, rest) = in_whole_blocks(bytes);
    let before_rest = search_run(report, whole, behind)?;
    let blocks = Blocks(search_run(report, rest, before_rest)?);
    report.say(format_args!("none overflowed in {blocks}\n"))?;
    Ok(Status::Well)
}

// What came before a read failed. A block that the failure cut is not looked at.
fn search_cut<R: Streams>(
    report: &Report<'_, R>,
    bytes: &[u8],
    behind: u64,
    error: io::Error,
) -> Result<Status, Stop> {
    let (whole, _) = in_whole_blocks(bytes);
    search_run(report, whole, behind)?;
    Err(report.fail(error))
}

// Nothing says that a file ends, but no file has so many parts.
pub(crate) fn search_parts<R: Streams>(
    report: &Report<'_, R>,
    input: &mut impl Read,
) -> Result<Status, Stop> {
    let mut part = [0u8; PART];
    let mut behind = 0;
    for _ in 0..u64::MAX {
        match fill(input, &mut part) {
            Filled::Full(bytes) => behind = search_run(report, bytes, behind)?,
            Filled::Ended(bytes) => return search_last(report, bytes, behind),
            Filled::Failed(bytes, error) => return search_cut(report, bytes, behind, error),
        }
    }
    Ok(Status::Well)
}
