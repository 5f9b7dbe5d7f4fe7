// The search over a run of blocks: `search::search`.
#![tactic(auto)]

pub mod search;
pub mod types;
