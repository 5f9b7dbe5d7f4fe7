// A line for each block of a file, part by part.
use crate::file::{Filled, PART, count_on, fill, in_whole_blocks};
use crate::line::{Digits, Line};
use crate::reason::Reason;
use crate::status::{Status, Stop};
use crate::system::Streams;
use crate::text::{Blocks, Report, count_set};
use block::read::read;
use block::types::Head;
use checked::refusal::Refusal;
use field::scan::scan;
use field::types::Range;
use layout::{BLOCK_LENGTH, one};
use std::io::Read;
use std::{fmt, io};

// There is room for the lines of a part's blocks, of which each has fewer than 512 bytes.
const LINES: usize = PART;

// A block has at most so many values.
const VALUES: usize = one::MOST;

// How many blocks were read, how many of them are bad, and how many have overflowed values.
#[derive(Clone, Copy)]
struct Tally {
    blocks: u64,
    bad: u64,
    overflowed: u64,
}

impl fmt::Display for Tally {
    fn fmt<W: fmt::Write>(&self, f: &mut fmt::Formatter<W>) -> fmt::Result {
        let blocks = Blocks(self.blocks);
        let bad = Digits(self.bad);
        let overflowed = Digits(self.overflowed);
        write!(
            f,
            "{blocks}, {bad} bad, {overflowed} with overflowed values\n"
        )
    }
}

impl Tally {
    fn status(&self) -> Status {
        if 0 < self.bad || 0 < self.overflowed {
            Status::Found
        } else {
            Status::Well
        }
    }
}

// The lines of a part's blocks, and the tally with these.
#[derive(Drop)]
struct Listing {
    lines: Line<LINES>,
    tally: Tally,
}

impl Listing {
    // A good block, with its values. A scan never passes over an overflowed place, and an empty field has no range.
    fn list_good(&mut self, number: u32, numbers: &[u64], marks: &[u8]) {
        let overflowed = count_set(marks);
        self.lines.column(10, self.tally.blocks);
        self.lines.column(12, u64::from(number));
        self.lines.column(7, marks.len() as u64);
        self.lines.column(12, overflowed);
        match scan(numbers, marks) {
            Ok(range) => {
                let Range {
                    least,
                    greatest,
                    width,
                } = range;
                self.lines.column(22, least);
                self.lines.column(22, greatest);
                self.lines.column(7, width);
                self.lines.put(b"\n");
            }
            Err(_) => self
                .lines
                .show("                     -                     -      -\n"),
        }
        if overflowed != 0 {
            self.tally.overflowed = count_on(self.tally.overflowed, 1);
        }
    }

    fn list_bad(&mut self, refusal: Refusal) {
        let reason = Reason(refusal);
        self.lines.column(10, self.tally.blocks);
        self.lines.show(format_args!("  bad block: {reason}\n"));
        self.tally.bad = count_on(self.tally.bad, 1);
    }

    // A block's line. Its values are read into the lent lists.
    fn list_block(&mut self, block: &[u8], numbers: &mut [u64; VALUES], marks: &mut [u8; VALUES]) {
        match read(block, numbers, marks) {
            Ok(Head { number, count }) => {
                if VALUES < count {
                    return;
                }
                self.list_good(number, &numbers[..count], &marks[..count]);
            }
            Err(refusal) => self.list_bad(refusal),
        }
        self.tally.blocks = count_on(self.tally.blocks, 1);
    }

    // The lines of a part's blocks, which are written when all of them are made. A short block at the end of the file is a
    // bad one.
    fn list_run<R: Streams>(&mut self, report: &Report<'_, R>, run: &[u8]) -> io::Result<()> {
        let mut numbers = [0u64; VALUES];
        let mut marks = [0u8; VALUES];
        self.lines.clear();
        for block in run.chunks(BLOCK_LENGTH) {
            self.list_block(block, &mut numbers, &mut marks);
        }
        report.write(self.lines.as_bytes())
    }

    fn list_last<R: Streams>(
        &mut self,
        report: &Report<'_, R>,
        bytes: &[u8],
    ) -> Result<Status, Stop> {
        self.list_run(report, bytes)?;
        let tally = self.tally;
        report.say(tally)?;
        Ok(tally.status())
    }

    // What came before a read failed. A block that the failure cut is not looked at.
    fn list_cut<R: Streams>(
        &mut self,
        report: &Report<'_, R>,
        bytes: &[u8],
        error: io::Error,
    ) -> Result<Status, Stop> {
        let (whole, _) = in_whole_blocks(bytes);
        self.list_run(report, whole)?;
        Err(report.fail(error))
    }
}

const COLUMNS: &[u8] =
    b"  position      number  count  overflowed                 least              greatest  width\n";

// Nothing says that a file ends, but no file has so many parts. The walk is that of `search_command`: what is done with a part
// and at the end differs, so one walk for both would need a trait of its own, and be no shorter.
pub(crate) fn read_parts<R: Streams>(
    report: &Report<'_, R>,
    input: &mut impl Read,
) -> Result<Status, Stop> {
    report.write(COLUMNS)?;
    let mut part = [0u8; PART];
    let mut listing = Listing {
        lines: Line::new(),
        tally: Tally {
            blocks: 0,
            bad: 0,
            overflowed: 0,
        },
    };
    for _ in 0..u64::MAX {
        match fill(input, &mut part) {
            Filled::Full(bytes) => listing.list_run(report, bytes)?,
            Filled::Ended(bytes) => return listing.list_last(report, bytes),
            Filled::Failed(bytes, error) => return listing.list_cut(report, bytes, error),
        }
    }
    Ok(Status::Well)
}
