// Row 5: one of the six operations at a width.
use crate::answers;
use crate::case::Case;
use crate::line::Output;
use crate::types::Fault;
use crate::values::Marked;
use checked::refusal::RefusedAt;
use checked::width::Width;
use shape::kind::{Kind, Operation};
use std::io::Write;

// What is asked of two values, at a width that is still to be looked at.
#[derive(Clone, Copy)]
struct Asked {
    operation: Operation,
    left: Marked,
    right: Marked,
}

impl Asked {
    fn answer<N: Width>(self) -> Result<Result<[u64; 2], RefusedAt>, Fault> {
        let left = self.left.value::<N>()?;
        let right = self.right.value::<N>()?;
        let answer = match self.operation {
            Operation::Sum => Ok(left.add_checked(right)),
            Operation::Product => Ok(left.mul_checked(right)),
            Operation::Quotient => left.quotient(right),
            Operation::Remainder => left.remainder(right),
            Operation::Power => left.power(right),
            Operation::Logarithm => left.logarithm(right),
        };
        Ok(answer.map(answers::marked).map_err(|refusal| refusal.at(0)))
    }
}

// b width, b kind, b left's mark, q left, b right's mark, q right.
pub(crate) fn replay<W: Write>(case: &mut Case<'_>, out: &mut Output<W>) -> Result<(), Fault> {
    let width = case.byte()?;
    let kind = case.byte()?;
    let left = Marked::read(case)?;
    let right = Marked::read(case)?;
    let Ok(Kind::Operation(operation)) = Kind::try_from(kind) else {
        return Err(Fault::NotAllowed);
    };
    let asked = Asked {
        operation,
        left,
        right,
    };
    let answer = match width {
        8 => asked.answer::<u8>()?,
        16 => asked.answer::<u16>()?,
        32 => asked.answer::<u32>()?,
        64 => asked.answer::<u64>()?,
        _ => return Err(Fault::NotAllowed),
    };
    out.whole_answer(answer);
    Ok(())
}
