// Row 1: a recipe runs with an allowance.
use crate::answers;
use crate::case::{Case, lent, within};
use crate::line::Output;
use crate::types::{Fault, MOST_ELEMENTS};
use recipe::run::run;
use recipe::types::Run;
use std::io::Write;
use steps::types::Phase;

// The phase's number and the five of its own.
fn phase_of(phase: Phase) -> [u64; 6] {
    match phase {
        Phase::Between => [0; 6],
        Phase::InPower(power) => {
            let [first_mark, first] = answers::marked(power.first);
            let [second_mark, second] = answers::marked(power.second);
            [1, first_mark, first, second_mark, second, power.exponent]
        }
        Phase::InLogarithm(logarithm) => {
            [2, logarithm.base, logarithm.left, logarithm.count, 0, 0]
        }
    }
}

// The hand has mark and number of each place, bottom first.
fn put_run<W: Write>(out: &mut Output<W>, run: Run) {
    out.answer(run.answer.map(answers::marked));
    out.further(&[run.steps, run.done]);
    out.further(&phase_of(run.phase));
    for (mark, number) in run.marks.iter().zip(&run.numbers) {
        out.further(&[u64::from(*mark), *number]);
    }
    out.end();
}

// b width, q allowance, h n, h k, n bytes of kinds, k × q of numbers.
pub(crate) fn replay<W: Write>(
    case: &mut Case<'_>,
    numbers: &mut [u64],
    out: &mut Output<W>,
) -> Result<(), Fault> {
    let width = u64::from(case.byte()?);
    let allowance = case.long()?;
    let kind_count = case.count()?;
    let number_count = case.count()?;
    let kind_count = within(kind_count, MOST_ELEMENTS)?;
    let numbers = lent(numbers, number_count)?;
    let kinds = case.take(kind_count)?;
    case.longs(numbers)?;
    put_run(out, run(width, kinds, numbers, allowance));
    Ok(())
}
