// The block: whether it is sound, and the reader.
#![tactic(auto)]

pub mod bytes;
pub mod copy;
pub mod read;
pub mod sound;
pub mod types;
