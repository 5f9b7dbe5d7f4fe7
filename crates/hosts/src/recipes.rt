// The run of a recipe, and its shape alone.
ghost use Rattle.std.specs.Prelude.{◌≡◌, ◌≤◌, length};
ghost use Rattle.std.proofs.lemmas.List.Edits.{sets};
ghost use Rattle.shape.specs.Shape.{shape_of};
ghost use Rattle.recipe.specs.Run.{answer_of, paper, run_of};
ghost use Rattle.entry.specs.Entry.{answer_code, answer_list};
ghost use Rattle.hosts.specs.Answers.{of_shape, head_of, of_run};

use crate::answer::{put, put_at};
use crate::state::{mark_of, mark_words, number_in, phase_words};
use checked::refusal::RefusedAt;
use checked::types::Checked64;
use entry::room::too_short;
use recipe::run::run;
use recipe::types::Run;
use shape::shape::shape;

// The refusal's place, or 0 with the largest number of the width.
const SHAPE_LENGTH: usize = 2;

// The answer, the steps and the items done, the phase with its numbers, the hand's 32 marks in four numbers, and its 32
// numbers.
const RUN_LENGTH: usize = 50;

// Whether a recipe is well formed, and the limit of its width.
pub fn razovinto_shape(width: u64, kinds: &[u8], numbers: &[u64], answer: &mut [u64]) -> u32
    ensures value { result ≡ answer_code (of_shape (shape_of width kinds.now numbers.now)) answer.old }
    ensures answer_new { answer.new ≡
        answer_list (of_shape (shape_of width kinds.now numbers.now)) answer.old }
{
    if answer.len() < SHAPE_LENGTH {
        return too_short();
    }
    match shape(width, kinds, numbers) {
        Ok(limit) => {
            put(answer, [0, limit]);
            0
        }
        Err(refused) => {
            put(answer, [refused.place, 0]);
            refused.refusal.number()
        }
    }
}

// The answer with the steps and the items done. A value has no place to tell. Here and in `put_run` the number for C is what is
// left of the answer once the rest is written, and so it is returned.
fn put_outcome(lent: &mut [u64], answer: Result<Checked64, RefusedAt>, steps: u64, done: u64) -> u32
    requires { 50 ≤ length lent.old }
    ensures value { result ≡ (answer_of answer).code }
    ensures lent_new { lent.new ≡ sets lent.old 0 (head_of (answer_of answer) steps done) }
{
    match answer {
        Ok(value) => {
            put(lent, [0, mark_of(value), number_in(value), steps, done]);
            0
        }
        Err(refused) => {
            put(lent, [refused.place, 0, 0, steps, done]);
            refused.refusal.number()
        }
    }
}

// The whole of what a run shows.
fn put_run(lent: &mut [u64], shown: Run) -> u32
    requires { 50 ≤ length lent.old }
    ensures value { result ≡ (of_run (paper shown)).code }
    ensures lent_new { lent.new ≡ sets lent.old 0 (of_run (paper shown)).words }
{
    let code = put_outcome(lent, shown.answer, shown.steps, shown.done);
    put_at(lent, 5, &phase_words(shown.phase));
    put_at(lent, 14, &mark_words(&shown.marks));
    put_at(lent, 18, &shown.numbers);
    code
}

// What a run shows: all of it, whatever its answer is.
pub fn razovinto_run(
    width: u64,
    kinds: &[u8],
    numbers: &[u64],
    allowance: u64,
    answer: &mut [u64],
) -> u32
    ensures value { result ≡ answer_code (of_run (run_of width kinds.now numbers.now allowance)) answer.old }
    ensures answer_new { answer.new ≡
        answer_list (of_run (run_of width kinds.now numbers.now allowance)) answer.old }
{
    if answer.len() < RUN_LENGTH {
        return too_short();
    }
    put_run(answer, run(width, kinds, numbers, allowance))
}
