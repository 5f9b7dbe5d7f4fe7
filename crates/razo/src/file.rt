// A file that is read in parts.
use crate::line::{Digits, Line};
use crate::status::Stop;
use crate::system::{Streams, System};
use crate::text::Report;
use layout::BLOCK_LENGTH;
use std::fs::File;
use std::io;
use std::io::{ErrorKind, Read};

// How many bytes a part has: as many as a pipe holds, so that little time goes into calls.
pub(crate) const PART: usize = 65536;

// Standard input, or a file of a name. It stays open to this value's end, and standard input to the program's.
#[derive(Drop)]
pub(crate) enum Source<S, F> {
    Standard(S),
    Named(F),
}

impl<S: Read, F: Read> Read for Source<S, F> {
    fn read(&mut self, part: &mut [u8]) -> io::Result<usize> {
        match self {
            Source::Standard(input) => input.read(part),
            Source::Named(file) => file.read(part),
        }
    }
}

// A part's bytes: all that it has room for, or those up to the end of the input or to a read that failed. The last has bytes
// too, so this is no `Result`.
#[derive(Clone, Copy)]
pub(crate) enum Filled<'a> {
    Full(&'a [u8]),
    Ended(&'a [u8]),
    Failed(&'a [u8], io::Error),
}

// The script `razo` lends the program the file of a word that isn't UTF-8, on the descriptor of this number and the word's
// index.
const LENT: u64 = 100;

// The file of such a word. std opens no descriptor by its number, but the system has a name for each.
fn open_lent<R: System>(rt: &R, index: usize) -> io::Result<R::File> {
    let descriptor = Digits(count_on(LENT, index as u64));
    let mut path = Line::<64>::new();
    path.show(format_args!("/proc/self/fd/{descriptor}"));
    match str::from_utf8(path.as_bytes()) {
        Ok(path) => File::open(rt, path),
        Err(_) => Err(io::Error::from(ErrorKind::InvalidFilename)),
    }
}

// The name of standard input.
pub(crate) const STANDARD: &[u8] = b"-";

// The file that a word of the command line names, or why it can't be opened. std takes names of
// UTF-8 alone.
pub(crate) fn open<R: System>(
    rt: &R,
    index: usize,
    name: &[u8],
) -> io::Result<Source<R::Reader, R::File>> {
    if name == STANDARD {
        return Ok(Source::Standard(rt.reader()));
    }
    match str::from_utf8(name) {
        Ok(path) => Ok(Source::Named(File::open(rt, path)?)),
        Err(_) => Ok(Source::Named(open_lent(rt, index)?)),
    }
}

// Reads until the part is full, the input ends or a read fails.
pub(crate) fn fill<'a, R: Read>(input: &mut R, part: &'a mut [u8]) -> Filled<'a> {
    let mut have = 0;
    while have < part.len() {
        match input.read(&mut part[have..]) {
            Ok(0) => return Filled::Ended(&part[..have]),
            Ok(more) => have += more,
            Err(error) => return Filled::Failed(&part[..have], error),
        }
    }
    Filled::Full(part)
}

// The bytes that the part was filled with, which are fewer than it has only where the input ended; or that a read failed,
// which was told.
pub(crate) fn take<'a, R: Streams, F: Read>(
    report: &Report<'_, R>,
    input: &mut F,
    part: &'a mut [u8],
) -> Result<&'a [u8], Stop> {
    match fill(input, part) {
        Filled::Full(bytes) | Filled::Ended(bytes) => Ok(bytes),
        Filled::Failed(_, error) => Err(report.fail(error)),
    }
}

// The bytes of whole blocks, and those after them.
pub(crate) fn in_whole_blocks(bytes: &[u8]) -> (&[u8], &[u8]) {
    bytes.split_at(bytes.len() - bytes.len() % BLOCK_LENGTH)
}

// A count that goes on. No input is long enough for it to stay where it is, and the largest number, which `saturating_add` has
// there, would be no count at all.
pub(crate) fn count_on(counted: u64, more: u64) -> u64 {
    counted.checked_add(more).unwrap_or(counted)
}
