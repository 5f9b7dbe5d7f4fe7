// What a search answers.

// An overflowed value, by its block's position and its place there.
#[derive(Clone, Copy, Debug, PartialEq, Eq)]
pub struct Spot {
    pub position: u64,
    pub place: u64,
}
