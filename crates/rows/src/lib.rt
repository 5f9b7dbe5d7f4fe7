// Whole rows of single operations at 64 bits: `row::row` over plain lists, and in `records` what a host program in C calls
// for a list of records.
#![tactic(auto)]

mod element;
pub mod records;
pub mod row;
pub mod types;
