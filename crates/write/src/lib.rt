// The block writer: `write::write` makes blocks of a field.
#![tactic(auto)]

pub mod write;
