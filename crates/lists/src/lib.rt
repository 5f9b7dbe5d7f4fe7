// The entry for host programs in C on rows of plain lists. It stands apart from that on records, so that a compiler puts the
// whole row into each. C has numbers and lists that it lends: so the entry returns a number, and writes to three lists.
#![tactic(auto)]

pub mod lists;
