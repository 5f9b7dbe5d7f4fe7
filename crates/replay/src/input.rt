// The input in large parts: a window of bytes that were read and not yet used.
ghost use Rattle.std.specs.Prelude.{◌≤◌};

use crate::failure;
use std::io::{Read, Write};

// The longest case: row 12 with the thirteen bytes before its lists, and as many kinds, lefts and rights as it may have.
const LONGEST: usize = 139277;

const ROOM: usize = 262144;

// The bytes from `start` up to `end` are still to be used. `is_open` says that more may come. It is no
// `Option` of the reader: with the reader lent to it, the proof of the loop didn't close. std's BufReader holds its bytes
// on the heap, and the program uses none.
#[derive(Drop)]
pub struct Input<R> {
    reader: R,
    bytes: [u8; ROOM],
    start: usize,
    end: usize,
    is_open: bool,
    ghost ordered: { start ≤ end },
    ghost within: { end ≤ 262144 },
}

impl<R: Read> Input<R> {
    pub(crate) fn new(reader: R) -> Self {
        Input {
            reader,
            bytes: [0; ROOM],
            start: 0,
            end: 0,
            is_open: true,
        }
    }

    pub(crate) fn window(&self) -> &[u8] {
        &self.bytes[self.start..self.end]
    }

    // What was used goes, but for so many bytes at the end of the window.
    pub(crate) fn keep_last(&mut self, left: usize) {
        self.start = self.end - left.min(self.end - self.start);
    }

    // Fills the window with the longest case, or with all that is left of the input.
    pub(crate) fn fill<E: Write>(&mut self, errors: &mut E) {
        let held = self.end - self.start;
        if !self.is_open || LONGEST <= held {
            return;
        }
        self.bytes.copy_within(self.start..self.end, 0);
        self.start = 0;
        self.end = held;
        while self.end < ROOM {
            match self.reader.read(&mut self.bytes[self.end..]) {
                Ok(0) => {
                    self.is_open = false;
                    return;
                }
                Ok(more) => self.end += more,
                Err(error) => {
                    failure::tell(errors, "read", error);
                    self.is_open = false;
                    return;
                }
            }
        }
    }
}
