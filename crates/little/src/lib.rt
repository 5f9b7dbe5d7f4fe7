// Numbers as bytes, the lowest first: `bytes` has functions both ways.
#![tactic(auto)]

pub mod bytes;
