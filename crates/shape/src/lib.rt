// Whether a recipe is well formed, looked at whole before anything of it runs.
#![tactic(auto)]

pub mod kind;
pub mod shape;
pub mod width;
