// The machine: the run's state, with its phase, goes from item to item, as far as the allowance brings it. Limit, lists and
// hand are no struct: each function takes those that its promise speaks of.
ghost use Rattle.std.specs.Prelude.{◌≡◌, List, [], ◌≤◌, ◌<◌, length};
ghost use Rattle.shape.specs.Items.{Item, items, kind_of};
ghost use Rattle.shape.specs.Shape.{Good};
ghost use Rattle.steps.specs.Steps as steps;
ghost use Rattle.recipe.specs.Run.{shown};
ghost use Rattle.recipe.specs.Machine.{Finishes, Operates, AtItem, Enters, Stands, Goes, driven_of};

use crate::hand::Hand;
use crate::types::{Driven, State};
use checked::refusal::Refusal;
use checked::types::Checked64;
use operation::begin::begin;
use operation::types::Progress;
use operation::work::work;
use steps::types::Phase;

// An item's end: its value is put on the hand, and the run is between items.
fn finish(hand: &mut Hand, done: usize, taken: u64, value: Checked64) -> State
    requires { (length hand.old < 32) × (done < 256) }
    ensures { Finishes done taken value
        hand.old hand.new result }
{
    hand.push(value);
    State {
        done: done + 1,
        taken,
        phase: Phase::Between,
    }
}

// The first step of an operation: its two operands leave the hand. A power or a logarithm with steps to take enters its
// phase.
fn operate(limit: u64, kind: u8, hand: &mut Hand, done: usize, from: u64) -> Result<State, Refusal>
    requires { (2 ≤ length hand.old) × (done < 256) }
    ensures { Operates limit from (kind_of kind) done
        hand.old hand.new result }
{
    let (left, right) = hand.operands();
    match begin(limit, kind, left, right)? {
        Progress::Value(value) => Ok(finish(hand, done, from, value)),
        Progress::Within(phase) => Ok(State {
            done,
            taken: from,
            phase,
        }),
    }
}

// The first step of the next item, which is the last of `from` steps.
fn enter(
    limit: u64,
    kinds: &[u8],
    numbers: &[u64],
    hand: &mut Hand,
    done: usize,
    from: u64,
) -> Result<State, Refusal>
    requires { AtItem limit kinds.now numbers.now done hand.old }
    ensures { Enters limit from (items kinds.now numbers.now) done
        hand.old hand.new result }
{
    // The code itself is asked, and an operation's goes on to `begin`, which takes the code: a `Kind` made here would be matched
    // twice, here and there. In a trial that took up to a quarter more time.
    let kind = kinds[done];
    if kind == 0 {
        let value = Checked64::Fits(numbers[done]);
        return Ok(finish(hand, done, from, value));
    }
    operate(limit, kind, hand, done, from)
}

// The further steps in the state's phase, which is left with the last of them: the operation's value is put on the
// hand. Where the allowance is spent before, the state is still in it.
fn go_on(limit: u64, hand: &mut Hand, state: State, allowance: u64) -> State
    requires { ((zs : List Item) × Stands limit zs hand.old state) × (state.taken ≤ allowance) }
    ensures { (zs : List Item) → Stands limit zs hand.old state →
        Goes limit allowance zs
        hand.old hand.new state result }
{
    let reached = work(limit, state.phase, state.taken, allowance);
    match reached.progress {
        Progress::Value(value) => finish(hand, state.done, reached.taken, value),
        Progress::Within(phase) => State {
            done: state.done,
            taken: reached.taken,
            phase,
        },
    }
}

// As many steps as the allowance has, or as the recipe takes. Each item is entered, and the run goes on in the phase
// that it entered.
pub(crate) fn drive(
    limit: u64,
    kinds: &[u8],
    numbers: &[u64],
    allowance: u64,
    hand: &mut Hand,
) -> Driven
    requires kinds_len { (length kinds.now ≡ length numbers.now) × (length kinds.now ≤ 256) × (0 < length kinds.now) }
    requires good { (hand.old ≡ []) × Good limit 0 (items kinds.now numbers.now) }
    ensures { driven_of hand.new result
        ≡ shown (steps.after limit allowance (steps.start (items kinds.now numbers.now))) }
{
    let n = kinds.len();
    let mut state = State {
        done: 0,
        taken: 0,
        phase: Phase::Between,
    };
    while state.taken < allowance {
        let from = state.taken + 1;
        match enter(limit, kinds, numbers, hand, state.done, from) {
            Ok(entered) => {
                state = go_on(limit, hand, entered, allowance);
                match state.phase {
                    Phase::Between => {
                        if state.done == n {
                            return Driven::Finished(hand.pop(), state.taken);
                        }
                    }
                    // Still in its phase: the allowance is spent.
                    _ => {
                        return Driven::Stopped(state);
                    }
                }
            }
            Err(refusal) => {
                return Driven::Refused(refusal, state.done, from);
            }
        }
    }
    Driven::Stopped(state)
}
