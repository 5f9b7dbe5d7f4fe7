// The run of a recipe: any width, any two lists and any allowance get an answer.
ghost use Rattle.std.specs.Prelude.{◌≡◌, ◌≤◌, ◌<◌, length};
ghost use Rattle.shape.specs.Items.{items};
ghost use Rattle.shape.specs.Shape.{Good};
ghost use Rattle.steps.specs.Steps.{after, start};
ghost use Rattle.recipe.specs.declared.types.Driven.TheVariants.{Stopped};
ghost use Rattle.recipe.specs.Run.{shown, ended, answer_of, paper, run_of};
ghost use Rattle.recipe.specs.Machine.{driven_of};

use crate::hand::Hand;
use crate::machine::drive;
use crate::types::{Driven, Run, State};
use checked::refusal::{Refusal, RefusedAt};
use checked::types::Checked64;
use shape::shape::shape;
use steps::types::Phase;

// An answer with its steps: no items done, every place fitting 0, between items.
fn ended(answer: Result<Checked64, RefusedAt>, steps: u64) -> Run
    ensures { paper result ≡ ended (answer_of answer) steps }
{
    Run {
        answer,
        steps,
        done: 0,
        numbers: [0u64; 32],
        marks: [0u8; 32],
        phase: Phase::Between,
    }
}

// Stopped: 20 at the number of items wholly done.
fn stopped(state: State, hand: Hand) -> Run
    ensures { paper result ≡ driven_of hand (Stopped state) }
{
    let done = state.done as u64;
    let (numbers, marks) = hand.into_places();
    Run {
        answer: Err(Refusal::AllowanceSpent.at(done)),
        steps: state.taken,
        done,
        numbers,
        marks,
        phase: state.phase,
    }
}

// Where the allowance has brought the run.
fn conclude(driven: Driven, hand: Hand) -> Run
    ensures { paper result ≡ driven_of hand driven }
{
    match driven {
        Driven::Finished(value, steps) => ended(Ok(value), steps),
        Driven::Refused(refusal, item, steps) => ended(Err(refusal.at(item as u64)), steps),
        Driven::Stopped(state) => stopped(state, hand),
    }
}

// A well-formed recipe.
fn run_good(limit: u64, kinds: &[u8], numbers: &[u64], allowance: u64) -> Run
    requires kinds_len { (length kinds.now ≡ length numbers.now) × (length kinds.now ≤ 256) × (0 < length kinds.now) }
    requires good { Good limit 0 (items kinds.now numbers.now) }
    ensures { paper result ≡ shown (after limit allowance (start (items kinds.now numbers.now))) }
{
    let mut hand = Hand::new();
    let driven = drive(limit, kinds, numbers, allowance, &mut hand);
    conclude(driven, hand)
}

// The shape is looked at whole before anything runs; then the recipe runs until it is done, refused, or out of its allowance.
// A recipe is two lists, as C lends them to `razovinto_run`, and its width is a number: docs/ENTRIES.md names `run`, and any
// number and any two lists get an answer.
pub fn run(width: u64, kinds: &[u8], numbers: &[u64], allowance: u64) -> Run
    ensures { paper result ≡ run_of width kinds.now numbers.now allowance }
{
    match shape(width, kinds, numbers) {
        Ok(limit) => run_good(limit, kinds, numbers, allowance),
        Err(refused) => ended(Err(refused), 0),
    }
}
