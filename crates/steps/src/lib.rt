// The types of a recipe's run, and its single steps as definitions and laws. This crate has no function.
#![tactic(auto)]

pub mod types;
