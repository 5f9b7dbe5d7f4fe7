// What the scan of a level answers.

// The least and the greatest reading of those looked at so far.
#[derive(Clone, Copy, Debug, PartialEq)]
pub struct Extent {
    pub least: f32,
    pub greatest: f32,
}
