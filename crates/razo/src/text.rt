// What is written out: lines that tell of a file, and complaints.
use crate::line::{Digits, Line};
use crate::status::{Status, Stop};
use crate::system::{Streams, System};
use std::fmt::{Display, InlineText};
use std::{fmt, io};

// As long as a word of the command line may be.
pub(crate) const LONGEST_WORD: usize = 4096;

// How much of a word that is too long is shown.
const SHOWN: usize = 32;

// There is room for a file's name and a word of the file.
const COMPLAINT: usize = 8704;

// There is room for a file's name and a line that tells of the file.
const NAMED_LINE: usize = 4608;

// A line that tells of a file, without the file's name.
const LINE: usize = 256;

// The first n bytes, or all of them where there are fewer.
pub(crate) fn first(bytes: &[u8], n: usize) -> &[u8] {
    bytes.get(..n).unwrap_or(bytes)
}

// How many bytes are not 0: marks that are set, or kinds that are operations.
pub(crate) fn count_set(bytes: &[u8]) -> u64 {
    bytes.iter().filter(|byte| **byte != 0).count() as u64
}

// One line on standard error: a word that is wrong, with what stands before and after it.
pub(crate) fn complain(
    rt: &impl Streams,
    before: impl Display + Drop,
    said: &[u8],
    behind: impl Display + Drop,
) -> Stop {
    let mut line = Line::<COMPLAINT>::new();
    line.show(before);
    line.put(said);
    line.show(behind);
    tell(rt, &line)
}

fn tell(rt: &impl Streams, line: &Line<COMPLAINT>) -> Stop {
    let _ = rt.write_error(line.as_bytes());
    Stop::Ended(Status::Wrong)
}

// What is behind the beginning of a word that no place here holds.
pub(crate) const TOO_LONG: &str = "'.. is too long: words have at most 4096 bytes\n";

// Such a word is shown by its first bytes.
pub(crate) fn shortened(said: &[u8]) -> &[u8] {
    first(said, SHOWN)
}

// The word of the command line at an index, in the space that is lent. A complaint about it begins with `before`.
pub(crate) fn word_at<'a>(
    rt: &impl System,
    index: usize,
    space: &'a mut [u8; LONGEST_WORD],
    before: impl Display + Drop,
) -> Result<&'a [u8], Stop> {
    match rt.arg(index, space) {
        Ok(length) => Ok(first(space, length)),
        Err(_) => Err(complain(rt, before, shortened(space), TOO_LONG)),
    }
}

// Longer than any text that the system has for an error.
const LONGEST_CAUSE: usize = 128;

// The system's text for an error, without the error's number, which std puts after it.
#[derive(Clone, Copy)]
struct Cause(io::Error);

impl Display for Cause {
    fn fmt<W: fmt::Write>(&self, f: &mut fmt::Formatter<W>) -> fmt::Result {
        let text = InlineText::<LONGEST_CAUSE>::of(self.0);
        let text = text.as_str();
        match text.split_once(" (os error ") {
            Some((cause, _)) => f.write_str(cause),
            None => f.write_str(text),
        }
    }
}

// So many blocks.
#[derive(Clone, Copy)]
pub(crate) struct Blocks(pub(crate) u64);

impl Display for Blocks {
    fn fmt<W: fmt::Write>(&self, f: &mut fmt::Formatter<W>) -> fmt::Result {
        match self.0 {
            1 => write!(f, "1 block"),
            count => {
                let count = Digits(count);
                write!(f, "{count} blocks")
            }
        }
    }
}

// Where the lines that tell of a file go: to standard output, behind the file's name where there are several files.
// `named` says so, and the name is no `Option`: complaints name a single file too.
#[derive(Drop)]
pub(crate) struct Report<'a, R> {
    pub(crate) rt: &'a R,
    pub(crate) name: &'a [u8],
    pub(crate) named: bool,
}

impl<'a, R: Streams> Report<'a, R> {
    // Of a file that is the only one.
    pub(crate) fn new(rt: &'a R, name: &'a [u8]) -> Self {
        Report {
            rt,
            name,
            named: false,
        }
    }

    // A line behind the file's name. It goes out at once, so that programs that write to one pipe don't cut each other's
    // lines.
    fn write_behind(&self, line: &[u8]) -> io::Result<()> {
        let mut whole = Line::<NAMED_LINE>::new();
        whole.put(self.name);
        whole.put(b":");
        whole.put(line);
        self.rt.write_all(whole.as_bytes())
    }

    // Writes the lines that tell of the file.
    pub(crate) fn write(&self, lines: &[u8]) -> io::Result<()> {
        if !self.named {
            return self.rt.write_all(lines);
        }
        for line in lines.split_inclusive(|byte| *byte == b'\n') {
            self.write_behind(line)?;
        }
        Ok(())
    }

    // Writes one line that tells of the file.
    pub(crate) fn say(&self, what: impl Display + Drop) -> io::Result<()> {
        let mut line = Line::<LINE>::new();
        line.show(what);
        self.write(line.as_bytes())
    }

    // One line on standard error about the file.
    pub(crate) fn complain(&self, what: impl Display + Drop) -> Stop {
        complain(self.rt, "razo: ", self.name, what)
    }

    // One line on standard error about a word of the file, with what stands before and after it. The file's
    // name comes first, and it need not be text, so it is no part of `before`.
    pub(crate) fn complain_word(
        &self,
        before: impl Display + Drop,
        said: &[u8],
        behind: impl Display + Drop,
    ) -> Stop {
        let mut line = Line::<COMPLAINT>::new();
        line.put(b"razo: ");
        line.put(self.name);
        line.show(before);
        line.put(said);
        line.show(behind);
        tell(self.rt, &line)
    }

    // One line on standard error: why the last call on the file failed.
    pub(crate) fn fail(&self, error: io::Error) -> Stop {
        let cause = Cause(error);
        self.complain(format_args!(": {cause}\n"))
    }
}
