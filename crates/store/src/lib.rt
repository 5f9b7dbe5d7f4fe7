// Numbers, bytes and zeros stored in a lent list of bytes: `bytes` has the functions.
#![tactic(auto)]

pub mod bytes;
