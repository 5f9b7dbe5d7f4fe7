// What reading a block answers.

// The block's number and how many values it has.
#[derive(Clone, Copy, Debug, PartialEq, Eq)]
pub struct Head {
    pub number: u32,
    pub count: usize,
}
