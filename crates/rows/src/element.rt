// One operation of a row.
ghost use Rattle.std.specs.Prelude.{◌≡◌, ◌<◌};
ghost use Rattle.checked.specs.Paper.{paper};
ghost use Rattle.shape.specs.Kinds.{operation_meant};
ghost use Rattle.razovinto.specs.Six.{answer_of};
ghost use Rattle.rows.specs.Rows.{element_of};

use crate::types::OperationRecord;
use checked::limited::{
    checked_add, checked_div, checked_log, checked_mul, checked_pow, checked_rem,
};
use checked::refusal::Refusal;
use checked::types::Checked64;
use shape::kind::{Kind, Operation};

// The single operation's own answer.
fn answer_of(operation: Operation, left: u64, right: u64) -> Result<Checked64, Refusal>
    ensures { paper result ≡ answer_of (operation_meant operation) left right }
{
    match operation {
        Operation::Sum => Ok(checked_add(u64::MAX, left, right)),
        Operation::Product => Ok(checked_mul(u64::MAX, left, right)),
        Operation::Quotient => checked_div(left, right),
        Operation::Remainder => checked_rem(left, right),
        Operation::Power => Ok(checked_pow(u64::MAX, left, right)),
        Operation::Logarithm => checked_log(left, right),
    }
}

// What kinds 0 and 1 answer: a literal is no operation, and 1 is a sum.
#[tactic(auto, unfolding(crate::specs::Rows::element_of, shape::specs::Items::kind_of))]
fn below_two(kind: u8, left: u64, right: u64) -> Result<Checked64, Refusal>
    requires { kind < 2 }
    ensures { paper result ≡ element_of kind left right }
{
    if kind == 0 {
        return Err(Refusal::UnknownKind);
    }
    Ok(checked_add(u64::MAX, left, right))
}

// The operation's answer, or 8 for a kind that is none of the six. Sums are told from the others by a test of their own,
// so that a row of them needs no table of jumps: without it such a row took 1.33 of the time. By the 0.45 of single
// entries that docs/SPEED.md has that is 0.60 of them, and more than the 0.50 that is asked of sums.
#[tactic(auto, unfolding(crate::specs::Rows::element_of))]
pub(crate) fn answer(operation: OperationRecord) -> Result<Checked64, Refusal>
    ensures { paper result ≡ element_of operation.kind operation.left operation.right }
{
    let kind = operation.kind;
    let left = operation.left;
    let right = operation.right;
    if kind < 2 {
        return below_two(kind, left, right);
    }
    match Kind::try_from(kind)? {
        Kind::Operation(single) => answer_of(single, left, right),
        Kind::Literal => Err(Refusal::UnknownKind),
    }
}
