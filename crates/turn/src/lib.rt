// A level turned into a field: `turn::turn`. `wholes` says which readings are whole numbers that a field takes.
#![tactic(auto)]

mod faults;
pub mod turn;
pub mod wholes;
