// Row 7: whether a power fits 64 bits.
use crate::case::Case;
use crate::line::Output;
use crate::types::Fault;
use std::io::Write;

// q base, q exponent.
pub(crate) fn replay<W: Write>(case: &mut Case<'_>, out: &mut Output<W>) -> Result<(), Fault> {
    let base = case.long()?;
    let exponent = case.long()?;
    out.whole(&[u64::from(fit::power_fits(base, exponent))]);
    Ok(())
}
