// A text that is made piece by piece in a place of its own, and then written out at once.
use crate::text::first;
use lines::put;
use std::fmt;

const BLANKS: &[u8] = b"                      ";

// Digits are text, so the other case doesn't come about.
fn text_of(digits: &[u8]) -> &str {
    str::from_utf8(digits).unwrap_or("")
}

// A number's decimal digits, which `io` makes.
#[derive(Clone, Copy)]
pub(crate) struct Digits(pub(crate) u64);

impl fmt::Display for Digits {
    fn fmt<W: fmt::Write>(&self, f: &mut fmt::Formatter<W>) -> fmt::Result {
        let mut digits = [0u8; 20];
        let count = io::decimal(self.0, &mut digits);
        f.write_str(text_of(&digits[..count]))
    }
}

// The eight hexadecimal digits of a number of 32 bits, which `io` makes too.
#[derive(Clone, Copy)]
pub(crate) struct HexDigits(pub(crate) u32);

impl fmt::Display for HexDigits {
    fn fmt<W: fmt::Write>(&self, f: &mut fmt::Formatter<W>) -> fmt::Result {
        let mut digits = [0u8; 16];
        let count = io::hex(u64::from(self.0), 8, &mut digits);
        f.write_str(text_of(&digits[..count]))
    }
}

// The text is the first `end` bytes. Its parts need not be UTF-8, since a file's name may have any bytes. What there is no
// room for is left out. Not a `Vec`: the program uses no heap.
#[derive(Drop)]
pub(crate) struct Line<const N: usize> {
    bytes: [u8; N],
    end: usize,
}

impl<const N: usize> Line<N> {
    pub(crate) fn new() -> Self {
        Line {
            bytes: [0; N],
            end: 0,
        }
    }

    pub(crate) fn put(&mut self, text: &[u8]) {
        self.end = put::word(&mut self.bytes, self.end, text);
    }

    // A number's digits at the end of a column of so many places, at most as many as there are blanks. Not by `Digits` and a
    // width, with which `razo read` took a third more time.
    pub(crate) fn column(&mut self, width: usize, number: u64) {
        let mut digits = [0u8; 20];
        let count = io::decimal(number, &mut digits);
        self.put(first(BLANKS, width.saturating_sub(count)));
        self.put(&digits[..count]);
    }

    pub(crate) fn show(&mut self, what: impl fmt::Display + Drop) {
        // Never fails, as `write_str` below doesn't.
        let _ = fmt::Write::write(self, what);
    }

    pub(crate) fn clear(&mut self) {
        self.end = 0;
    }

    pub(crate) fn as_bytes(&self) -> &[u8] {
        self.bytes.get(..self.end).unwrap_or(&self.bytes)
    }
}

impl<const N: usize> fmt::Write for Line<N> {
    fn write_str(&mut self, text: &str) -> fmt::Result {
        self.put(text.as_bytes());
        Ok(())
    }
}
