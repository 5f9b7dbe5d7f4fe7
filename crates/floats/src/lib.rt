// What a host program in C calls on raw floats: `levels` has the entries. C has numbers and lists that it lends: so an entry
// returns a number, 0 or a refusal's, and its answer is numbers at places of lists.
#![tactic(auto)]

pub mod levels;
