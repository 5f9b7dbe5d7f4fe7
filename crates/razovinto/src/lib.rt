// The six operations for a host program written in C: `entries` has what it calls, `result` what they write.
#![tactic(auto)]

pub mod entries;
pub mod result;
