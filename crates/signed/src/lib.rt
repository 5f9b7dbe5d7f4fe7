// Truncating quotient and remainder of signed numbers. Every pair of numbers gets an answer.
#![tactic(auto)]

pub mod divide;
pub mod width;
