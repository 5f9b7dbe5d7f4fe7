// What a run answers.
use checked::refusal::{Refusal, RefusedAt};
use checked::types::Checked64;
use steps::types::Phase;

// The answer, which is the recipe's value, or why there is none and at which place; the steps taken; and, where the
// allowance was spent, the items wholly done, the hand from the bottom up and the phase. With any other answer those are
// 0, empty and between items. All stand in every run, the hand as two arrays, since `razovinto_run` shows them to C whatever
// the answer is.
#[derive(Clone, Copy, Debug, PartialEq, Eq)]
pub struct Run {
    pub answer: Result<Checked64, RefusedAt>,
    pub steps: u64,
    pub done: u64,
    pub numbers: [u64; 32],
    pub marks: [u8; 32],
    pub phase: Phase,
}

// A run's state beside its hand: how many items are wholly done, the steps taken, and the phase.
#[derive(Clone, Copy, Debug, PartialEq, Eq)]
pub struct State {
    pub done: usize,
    pub taken: u64,
    pub phase: Phase,
}

// How far an allowance brought a run: to its value or to a refused item, after how many steps, or to the state where it
// stopped. This is no `Result`: each of the three ends has numbers of its own.
#[derive(Clone, Copy, Debug, PartialEq, Eq)]
pub enum Driven {
    Finished(Checked64, u64),
    Refused(Refusal, usize, u64),
    Stopped(State),
}
