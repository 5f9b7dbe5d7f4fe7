// The scan of a level: `scan::scan`.
#![tactic(auto)]

mod extent;
mod faults;
mod ranks;
pub mod scan;
pub mod types;
