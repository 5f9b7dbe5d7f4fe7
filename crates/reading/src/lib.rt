// A level's readings one by one: `seen::seen` looks at a reading with its ground mark, `marks::all_marked` at the marks
// alone.
#![tactic(auto)]

pub mod marks;
pub mod seen;
pub mod types;
