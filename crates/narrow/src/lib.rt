// Checked numbers of 8, 16 and 32 bits, by name, and upstream's clauses at these widths. What they do stands in `checked`,
// once for every width.
#![tactic(auto)]

pub mod types;
