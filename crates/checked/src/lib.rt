// Checked numbers: a number that fits its width, or the note that it was too large for it. No operation wraps, traps or asks
// its caller to have checked.
#![tactic(auto, using(crate::proofs::Limit::fits, crate::proofs::Limit::over))]

pub mod limited;
pub mod number;
pub mod refusal;
pub mod types;
pub mod width;
