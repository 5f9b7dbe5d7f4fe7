// A block laid out from a number and values: `one::lay` by edition 1.
#![tactic(auto)]

pub mod one;
