// The places of edition 1.

// Its number, which stands in byte 5.
pub const TAG: u8 = 1;

// How many values at most, where their numbers begin, and where what follows their marks begins.
pub const MOST: usize = 55;

pub const FIRST: usize = 8;

pub const PAST: usize = 503;
