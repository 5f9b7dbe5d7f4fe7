// The run of a recipe: `run::run` is the one entry, the other modules are its parts.
#![tactic(auto)]

pub mod hand;
pub mod machine;
pub mod run;
pub mod types;
