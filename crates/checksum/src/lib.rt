// The sum that a block's check is to be: `sum::check_sum`.
#![tactic(auto)]

pub mod sum;
