// An operation of a recipe: `begin::begin` is its first step, `work::work` its further steps, and `within` has their
// parts.
#![tactic(auto)]

pub mod begin;
pub mod types;
pub mod within;
pub mod work;
