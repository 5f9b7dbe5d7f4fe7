// The sizes of a case's lists, and why a case is malformed.
use std::fmt;

// The most elements that a list of a case has, but for rows 9 to 12. The lists that cases are given to use have as many.
pub const MOST_ELEMENTS: usize = 4096;

// The most elements that a list of rows 9 to 12 has.
pub const MOST_VALUES: usize = 8192;

// The most bytes that a run of blocks has.
pub const MOST_BYTES: usize = 65536;

// What stands in the lists that are lent to be filled, before a case: a number, and a byte that is no mark.
pub const NUMBER_BEFORE: u64 = 7777777;

pub const BYTE_BEFORE: u8 = 170;

// Why a case is malformed.
#[derive(Clone, Copy, Debug, PartialEq, Eq)]
pub enum Fault {
    // the input ends within it
    CutShort,
    // a list or a run of blocks past the sizes
    TooLarge,
    // first byte that no row has
    UnknownRow,
    // width, kind, mark, number or edition that the row doesn't allow
    NotAllowed,
}

impl fmt::Display for Fault {
    fn fmt<W: fmt::Write>(&self, f: &mut fmt::Formatter<W>) -> fmt::Result {
        f.write_str(match self {
            Fault::CutShort => "cut short",
            Fault::TooLarge => "too large",
            Fault::UnknownRow => "unknown row",
            Fault::NotAllowed => "not allowed",
        })
    }
}
