// Row 8: the plain number is asked of a checked value.
use crate::case::Case;
use crate::line::Output;
use crate::types::Fault;
use crate::values::Marked;
use checked::refusal::RefusedAt;
use checked::width::Width;
use std::io::Write;

// At a width.
fn plain<N: Width>(value: Marked) -> Result<Result<[u64; 1], RefusedAt>, Fault> {
    let answer = value.value::<N>()?.unwrap();
    Ok(answer.map(|n| [n.wide()]).map_err(|refusal| refusal.at(0)))
}

// b width, b mark, q number.
pub(crate) fn replay<W: Write>(case: &mut Case<'_>, out: &mut Output<W>) -> Result<(), Fault> {
    let width = case.byte()?;
    let value = Marked::read(case)?;
    // As in `operations` and `divisions`: a closure takes no type parameter, so each row matches the width itself.
    let answer = match width {
        8 => plain::<u8>(value)?,
        16 => plain::<u16>(value)?,
        32 => plain::<u32>(value)?,
        64 => plain::<u64>(value)?,
        _ => return Err(Fault::NotAllowed),
    };
    out.whole_answer(answer);
    Ok(())
}
