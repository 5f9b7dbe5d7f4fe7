// A field's range: `scan::scan`, and the packing width `width::packing_width`; its marks alone: `bad_marks::first_bad`.
#![tactic(auto)]

pub mod bad_marks;
pub mod scan;
pub mod types;
pub mod width;
