// Row 6: quotient and remainder of signed numbers, at each width.
use crate::case::Case;
use crate::line::Output;
use crate::types::Fault;
use checked::refusal::RefusedAt;
use signed::divide;
use signed::width::SignedWidth;
use std::io::Write;

// The sign and the size of a number.
fn shown(n: i64) -> [u64; 2] {
    [u64::from(n < 0), n.unsigned_abs()]
}

// What is asked of two numbers.
#[derive(Clone, Copy, Debug, PartialEq, Eq)]
enum Asked {
    Quotient,
    Remainder,
}

impl TryFrom<u8> for Asked {
    type Error = Fault;

    fn try_from(code: u8) -> Result<Self, Fault> {
        match code {
            0 => Ok(Asked::Quotient),
            1 => Ok(Asked::Remainder),
            _ => Err(Fault::NotAllowed),
        }
    }
}

// The answer at a width, which both numbers have to fit.
fn divided<N: SignedWidth>(
    asked: Asked,
    a: i64,
    b: i64,
) -> Result<Result<[u64; 2], RefusedAt>, Fault> {
    let a = N::narrow(a).ok_or(Fault::NotAllowed)?;
    let b = N::narrow(b).ok_or(Fault::NotAllowed)?;
    let answer = match asked {
        Asked::Quotient => divide::quotient(a, b),
        Asked::Remainder => divide::remainder(a, b),
    };
    Ok(
        answer
            .map(|n| shown(n.wide()))
            .map_err(|refusal| refusal.at(0)),
    )
}

// b width, b which (0 quotient, 1 remainder), q a, q b in two's complement.
pub(crate) fn replay<W: Write>(case: &mut Case<'_>, out: &mut Output<W>) -> Result<(), Fault> {
    let width = case.byte()?;
    let which = case.byte()?;
    let a = case.long()?.cast_signed();
    let b = case.long()?.cast_signed();
    let asked = Asked::try_from(which)?;
    let answer = match width {
        8 => divided::<i8>(asked, a, b)?,
        16 => divided::<i16>(asked, a, b)?,
        32 => divided::<i32>(asked, a, b)?,
        64 => divided::<i64>(asked, a, b)?,
        _ => return Err(Fault::NotAllowed),
    };
    out.whole_answer(answer);
    Ok(())
}
