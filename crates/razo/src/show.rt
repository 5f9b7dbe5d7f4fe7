// What a run answers, in lines.
use crate::line::Digits;
use crate::reason::Reason;
use crate::status::Status;
use crate::text::{count_set, first};
use checked::refusal::{Refusal, RefusedAt};
use checked::types::Checked64;
use recipe::types::Run;
use std::fmt;
use std::fmt::Display;
use steps::types::Phase;

// A number, or that it is overflowed.
#[derive(Clone, Copy)]
struct Value(Checked64);

impl Display for Value {
    fn fmt<W: fmt::Write>(&self, f: &mut fmt::Formatter<W>) -> fmt::Result {
        match self.0 {
            Checked64::Fits(n) => Digits(n).fmt(f),
            Checked64::Overflowed => write!(f, "overflowed"),
        }
    }
}

// Where a recipe was refused: at an item, at its end, or as a whole.
#[derive(Clone, Copy)]
struct Place(RefusedAt);

impl Display for Place {
    fn fmt<W: fmt::Write>(&self, f: &mut fmt::Formatter<W>) -> fmt::Result {
        let place = Digits(self.0.place);
        match self.0.refusal {
            Refusal::UnknownWidth | Refusal::LengthsDiffer | Refusal::ItemCount => Ok(()),
            Refusal::SeveralLeft | Refusal::NoneLeft => write!(f, " after {place} items"),
            _ => write!(f, " at item {place}"),
        }
    }
}

// The places in use, from the bottom up: two lists, as a `Run` has them.
#[derive(Clone, Copy)]
struct Hand<'a> {
    numbers: &'a [u64],
    marks: &'a [u8],
}

impl Display for Hand<'_> {
    fn fmt<W: fmt::Write>(&self, f: &mut fmt::Formatter<W>) -> fmt::Result {
        if self.numbers.is_empty() {
            return write!(f, " empty");
        }
        for (number, mark) in self.numbers.iter().zip(self.marks) {
            if *mark == 0 {
                let number = Digits(*number);
                write!(f, " {number}")?;
            } else {
                write!(f, " overflowed")?;
            }
        }
        Ok(())
    }
}

// What a run is at between two steps.
#[derive(Clone, Copy)]
struct At(Phase);

impl Display for At {
    fn fmt<W: fmt::Write>(&self, f: &mut fmt::Formatter<W>) -> fmt::Result {
        match self.0 {
            Phase::Between => write!(f, "between items"),
            Phase::InPower(power) => {
                let first = Value(power.first);
                let second = Value(power.second);
                let exponent = Digits(power.exponent);
                write!(
                    f,
                    "within a power: first {first}, second {second}, exponent {exponent}"
                )
            }
            Phase::InLogarithm(logarithm) => {
                let base = Digits(logarithm.base);
                let left = Digits(logarithm.left);
                let count = Digits(logarithm.count);
                write!(
                    f,
                    "within a logarithm: base {base}, left {left}, count {count}"
                )
            }
        }
    }
}

// A run of the recipe with these kinds.
#[derive(Clone, Copy)]
pub(crate) struct Shown<'a> {
    pub(crate) run: Run,
    pub(crate) kinds: &'a [u8],
}

impl Shown<'_> {
    pub(crate) fn status(&self) -> Status {
        match self.run.answer {
            Ok(Checked64::Fits(_)) => Status::Well,
            Ok(Checked64::Overflowed) | Err(_) => Status::Found,
        }
    }

    // How many values are on hand after the items done: each literal added one, and each operation took one away. Within a
    // power or a logarithm its two operands have left too.
    fn held(&self) -> u64 {
        let done = self.run.done;
        let operations = count_set(first(self.kinds, done as usize));
        let literals = done.saturating_sub(operations);
        let held = literals.saturating_sub(operations);
        match self.run.phase {
            Phase::Between => held,
            _ => held.saturating_sub(2),
        }
    }

    // The state where the allowance was spent.
    fn write_state<W: fmt::Write>(&self, f: &mut fmt::Formatter<W>) -> fmt::Result {
        let done = Digits(self.run.done);
        let held = self.held().min(32) as usize;
        let hand = Hand {
            numbers: &self.run.numbers[..held],
            marks: &self.run.marks[..held],
        };
        let phase = At(self.run.phase);
        write!(f, "items done: {done}\nhand:{hand}\nphase: {phase}\n")
    }
}

impl Display for Shown<'_> {
    fn fmt<W: fmt::Write>(&self, f: &mut fmt::Formatter<W>) -> fmt::Result {
        let steps = Digits(self.run.steps);
        match self.run.answer {
            Ok(value) => {
                let value = Value(value);
                write!(f, "answer: {value}\nsteps: {steps}\n")
            }
            Err(refused) => {
                let reason = Reason(refused.refusal);
                if refused.refusal == Refusal::AllowanceSpent {
                    write!(f, "stopped: {reason}\nsteps: {steps}\n")?;
                    return self.write_state(f);
                }
                let place = Place(refused);
                write!(f, "refused: {reason}{place}\nsteps: {steps}\n")
            }
        }
    }
}
