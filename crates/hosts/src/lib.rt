// What a host program in C calls beyond the six operations: `recipes`, `fields`, `blocks` and `numbers` have the entries,
// `answer` and `state` what they write. C has numbers and lists that it lends: so an entry returns a number, 0 or a refusal's,
// and its answer is numbers at places of a list.
#![tactic(auto)]

mod answer;
pub mod blocks;
pub mod fields;
pub mod numbers;
pub mod recipes;
mod state;
