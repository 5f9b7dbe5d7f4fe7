// What the steps of an operation come to.
use checked::types::Checked64;
use steps::types::Phase;

// Where an operation is that is not refused: at its value, or in a phase in which it has more steps.
#[derive(Clone, Copy, Debug, PartialEq, Eq)]
pub enum Progress {
    Value(Checked64),
    Within(Phase),
}

// How far an allowance brings an operation from a phase on, and after how many of the run's steps: to its value, or to
// a phase where the allowance is spent.
#[derive(Clone, Copy, Debug, PartialEq, Eq)]
pub struct Reached {
    pub progress: Progress,
    pub taken: u64,
}
