// The first step of an operation: it has its value, it enters a phase, or it is refused.
ghost use Rattle.std.specs.Prelude.{◌≡◌};
ghost use Rattle.checked.specs.Paper.{paper};
ghost use Rattle.checked.specs.Value.{raised_of, OneOverflowed};
ghost use Rattle.shape.specs.Items.{kind_of, power, logarithm};
ghost use Rattle.shape.specs.Kinds.{operation_meant};
ghost use Rattle.steps.specs.Steps.{begun, at_once, unless_refused};
ghost use Rattle.operation.specs.Work.{outcome, begun_as};

use crate::types::Progress;
use crate::within::{dividing, powering};
use checked::limited::{
    add_checked, both, checked_of, logarithm, mul_checked, pow_checked, quotient, remainder,
};
use checked::refusal::Refusal;
use checked::types::Checked64;
use shape::kind::{Kind, Operation};

// An answer of checked values, had in one step.
fn at_once(answer: Result<Checked64, Refusal>) -> Result<Progress, Refusal>
    ensures { outcome result ≡ unless_refused (paper answer) (at_once (paper answer)) }
{
    Ok(Progress::Value(answer?))
}

// A power enters its phase where both operands fit.
fn begin_power(limit: u64, left: Checked64, right: Checked64) -> Result<Progress, Refusal>
    ensures { outcome result ≡ begun limit power left right }
{
    match both(left, right) {
        Some((l, r)) => Ok(powering(checked_of(limit, 1), Checked64::Fits(l), r)),
        None => Ok(Progress::Value(power_apart(limit, left, right))),
    }
}

// With an overflowed operand: where the base fits, that is the exponent. Said so, a compiler leaves out what checked
// numbers do where both fit.
fn power_apart(limit: u64, left: Checked64, right: Checked64) -> Checked64
    requires { OneOverflowed left right }
    ensures { result ≡ raised_of limit left right }
{
    match left {
        Checked64::Fits(l) => pow_checked(limit, Checked64::Fits(l), Checked64::Overflowed),
        Checked64::Overflowed => pow_checked(limit, Checked64::Overflowed, right),
    }
}

// A logarithm enters its phase where both operands fit.
fn begin_logarithm(limit: u64, left: Checked64, right: Checked64) -> Result<Progress, Refusal>
    ensures { outcome result ≡ begun limit logarithm left right }
{
    match both(left, right) {
        Some((l, r)) => {
            if l < 2 {
                return Err(Refusal::BaseBelowTwo);
            }
            Ok(dividing(l, r, 0))
        }
        None => at_once(logarithm(left, right)),
    }
}

// What an operation begins with on these two operands. The limit and both stay parameters: docs/ENTRIES.md has this function
// and `begin` with them, and the private ones pass them on.
pub fn begin_operation(
    limit: u64,
    operation: Operation,
    left: Checked64,
    right: Checked64,
) -> Result<Progress, Refusal>
    ensures { outcome result ≡ begun limit (operation_meant operation) left right }
{
    match operation {
        Operation::Sum => Ok(Progress::Value(add_checked(limit, left, right))),
        Operation::Product => Ok(Progress::Value(mul_checked(limit, left, right))),
        Operation::Quotient => at_once(quotient(left, right)),
        Operation::Remainder => at_once(remainder(left, right)),
        Operation::Power => begin_power(limit, left, right),
        Operation::Logarithm => begin_logarithm(limit, left, right),
    }
}

// What the operation of a kind begins with on these two operands; what is no operation is refused with 8. It takes the code:
// docs/ENTRIES.md names it, and any byte gets an answer.
pub fn begin(limit: u64, kind: u8, left: Checked64, right: Checked64) -> Result<Progress, Refusal>
    ensures { outcome result ≡ begun_as limit (kind_of kind) left right }
{
    // Sums and products apart from the others, by comparisons: of one match of all six a compiler makes a table of jumps,
    // which took a quarter more time in recipes of five items of mixed kinds. docs/SPEED.md sets no bar for these; the code is
    // the parameter anyway, and to compare it is no longer.
    if kind < 3 {
        return match kind {
            1 => begin_operation(limit, Operation::Sum, left, right),
            2 => begin_operation(limit, Operation::Product, left, right),
            _ => Err(Refusal::UnknownKind),
        };
    }
    match Kind::try_from(kind)? {
        Kind::Literal => Err(Refusal::UnknownKind),
        Kind::Operation(operation) => begin_operation(limit, operation, left, right),
    }
}
