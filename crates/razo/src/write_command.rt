// Blocks from the words of a file, part by part.
ghost use Rattle.std.specs.Prelude.{◌≤◌};

use crate::file::{Filled, PART, count_on, fill};
use crate::line::Digits;
use crate::reason::Reason;
use crate::status::{Status, Stop};
use crate::system::Streams;
use crate::text::{LONGEST_WORD, Report, TOO_LONG, first, shortened};
use crate::words::{NoWord, Word, word_of};
use checked::refusal::Refusal;
use checked::types::Checked64;
use std::fmt;
use std::fmt::Display;
use std::io::Read;
use write::write::write;

// At most the values of so many full blocks wait to be written, which are so many.
const BLOCKS: u64 = 128;

const VALUES: usize = 7040;

// The bytes of these blocks.
const RUN: usize = 65536;

// Why a word is no value.
#[derive(Clone, Copy)]
enum Fault {
    TooLong,
    TooLarge,
    Neither,
}

impl From<NoWord> for Fault {
    fn from(fault: NoWord) -> Self {
        match fault {
            NoWord::TooLarge => Fault::TooLarge,
            NoWord::Neither => Fault::Neither,
        }
    }
}

impl Display for Fault {
    fn fmt<W: fmt::Write>(&self, f: &mut fmt::Formatter<W>) -> fmt::Result {
        f.write_str(match self {
            Fault::TooLong => TOO_LONG,
            Fault::TooLarge => "' is too large: numbers are below 2^64\n",
            Fault::Neither => "' is neither a number nor 'overflowed'\n",
        })
    }
}

const OVERFLOWED: &[u8] = b"overflowed";

// The value that a word says.
fn value_of(said: &[u8]) -> Result<Checked64, Fault> {
    if LONGEST_WORD < said.len() {
        return Err(Fault::TooLong);
    }
    if said == OVERFLOWED {
        return Ok(Checked64::Overflowed);
    }
    match word_of(said)? {
        Word::Number(number) => Ok(Checked64::Fits(number)),
        Word::Operation(_) => Err(Fault::Neither),
    }
}

// A word that is wrong, by its line.
fn complain_word<R: Streams>(report: &Report<'_, R>, line: u64, said: &[u8], fault: Fault) -> Stop {
    let shown = match fault {
        Fault::TooLong => shortened(said),
        Fault::TooLarge | Fault::Neither => said,
    };
    let line = Digits(line);
    report.complain_word(format_args!(": line {line}: '"), shown, fault)
}

fn complain_refusal<R: Streams>(report: &Report<'_, R>, refusal: Refusal) -> Stop {
    let reason = Reason(refusal);
    report.complain(format_args!(": {reason}\n"))
}

// The values that wait to be written, and the number of the block that the first of them goes into. Two lists, as `write`
// takes them, of a fixed size: the program uses no heap.
#[derive(Drop)]
struct Waiting {
    numbers: [u64; VALUES],
    marks: [u8; VALUES],
    held: usize,
    next: u64,
    ghost within: { held ≤ 7040 },
}

impl Waiting {
    // Writes the blocks of the values that wait. Where there is none, the library refuses.
    fn write_out<R: Streams>(&self, report: &Report<'_, R>) -> Result<(), Stop> {
        let Ok(number) = u32::try_from(self.next) else {
            return Err(complain_refusal(report, Refusal::BlockNumberTooLarge));
        };
        let numbers = &self.numbers[..self.held];
        let marks = &self.marks[..self.held];
        let mut run = [0u8; RUN];
        match write(numbers, marks, number, &mut run) {
            Ok(length) => {
                report.rt.write_all(first(&run, length as usize))?;
                Ok(())
            }
            Err(refused) => Err(complain_refusal(report, refused.refusal)),
        }
    }

    // One value more, as the number and the mark that the two lists have. Where there is no room, the blocks of those that wait
    // are written first.
    fn push<R: Streams>(&mut self, report: &Report<'_, R>, value: Checked64) -> Result<(), Stop> {
        if VALUES <= self.held {
            self.write_out(report)?;
            self.held = 0;
            self.next = count_on(self.next, BLOCKS);
        }
        let (number, mark) = match value {
            Checked64::Fits(number) => (number, 0),
            Checked64::Overflowed => (0, 1),
        };
        self.numbers[self.held] = number;
        self.marks[self.held] = mark;
        self.held += 1;
        Ok(())
    }
}

fn is_white(byte: u8) -> bool {
    matches!(byte, b' ' | b'\t' | b'\n' | b'\r')
}

// A part of the file. Of its bytes, those from `from` to before `to` are still to be taken. Then the line there. std's
// BufReader holds its part on the heap, and the program uses none.
#[derive(Drop)]
struct Words {
    part: [u8; PART],
    from: usize,
    to: usize,
    line: u64,
}

impl Words {
    // Takes the words that end within the part, whose end may cut one.
    fn take<R: Streams>(
        &mut self,
        report: &Report<'_, R>,
        waiting: &mut Waiting,
    ) -> Result<(), Stop> {
        let bytes = first(&self.part, self.to);
        let mut from = self.from;
        let mut line = self.line;
        // By places: each is needed for the word too, and `enumerate` and `skip` are no plainer.
        for end in from..bytes.len() {
            let byte = bytes[end];
            if is_white(byte) {
                if from < end {
                    let said = &bytes[from..end];
                    match value_of(said) {
                        Ok(value) => waiting.push(report, value)?,
                        Err(fault) => return Err(complain_word(report, line, said, fault)),
                    }
                }
                if byte == b'\n' {
                    line = count_on(line, 1);
                }
                from = end + 1;
            }
        }
        self.from = from;
        self.line = line;
        Ok(())
    }

    // The next part, and whether the file ends with it. It begins with the word that the end of the one before cut, unless
    // that is too long already. The end of the file ends its last word, as a newline does.
    fn go_on<R: Streams>(
        &mut self,
        report: &Report<'_, R>,
        input: &mut impl Read,
    ) -> Result<bool, Stop> {
        let start = self.from.min(PART);
        let cut = PART - start;
        self.part.copy_within(start.., 0);
        if LONGEST_WORD < cut {
            let said = &self.part[..cut];
            return Err(complain_word(report, self.line, said, Fault::TooLong));
        }
        self.from = 0;
        match fill(input, &mut self.part[cut..]) {
            Filled::Full(_) => {
                self.to = PART;
                Ok(false)
            }
            Filled::Ended(more) => {
                let end = cut + more.len();
                // The part has room for it, or it would be full.
                if let Some(byte) = self.part.get_mut(end) {
                    *byte = b'\n';
                    self.to = end + 1;
                }
                Ok(true)
            }
            Filled::Failed(_, error) => Err(report.fail(error)),
        }
    }
}

// Nothing says that a file ends, but no file has so many words.
pub(crate) fn write_parts<R: Streams>(
    report: &Report<'_, R>,
    input: &mut impl Read,
    number: u32,
) -> Result<Status, Stop> {
    let mut words = Words {
        part: [0; PART],
        from: PART,
        to: PART,
        line: 1,
    };
    let mut waiting = Waiting {
        numbers: [0; VALUES],
        marks: [0; VALUES],
        held: 0,
        next: u64::from(number),
    };
    for _ in 0..u64::MAX {
        let is_last = words.go_on(report, input)?;
        words.take(report, &mut waiting)?;
        if is_last {
            waiting.write_out(report)?;
            return Ok(Status::Well);
        }
    }
    Ok(Status::Well)
}
