// The places of a block, for the crates that look at one: the numbers of `specs/Editions.antt`. There is no function
// here.
#![tactic(auto)]

// A block is so many bytes.
pub const BLOCK_LENGTH: usize = 512;

// What an edition's head says, the marks and the check begin here, in every edition.
pub const HEAD_AT: usize = 6;

pub const MARKS_AT: usize = 448;

pub const CHECK_AT: usize = 508;

pub mod one;
