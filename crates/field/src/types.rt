// What a scan answers.

// A field's least and greatest number, and the packing width of what lies between them.
#[derive(Clone, Copy, Debug, PartialEq, Eq)]
pub struct Range {
    pub least: u64,
    pub greatest: u64,
    pub width: u64,
}
