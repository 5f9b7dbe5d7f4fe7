// A checked value as a case has it.
use crate::case::Case;
use crate::types::Fault;
use checked::types::Checked;
use checked::width::Width;

// Its mark and its number, as the case has them. Which values there are depends on the width, which is still to be looked at.
#[derive(Clone, Copy, Debug, PartialEq, Eq)]
pub struct Marked {
    pub mark: u8,
    pub number: u64,
}

impl Marked {
    // b mark, q number.
    pub(crate) fn read(case: &mut Case<'_>) -> Result<Self, Fault> {
        let mark = case.byte()?;
        let number = case.long()?;
        Ok(Marked { mark, number })
    }

    // The value at a width. It has to stand for itself there: a number that fits it, or overflowed with the number 0.
    pub(crate) fn value<N: Width>(self) -> Result<Checked<N>, Fault> {
        match (self.mark, self.number) {
            (0, number) => match N::narrow(number) {
                Checked::Fits(n) => Ok(Checked::new(n)),
                Checked::Overflowed => Err(Fault::NotAllowed),
            },
            (1, 0) => Ok(Checked::new_overflowed()),
            _ => Err(Fault::NotAllowed),
        }
    }
}
