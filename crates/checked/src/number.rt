// Checked numbers of any width: each operation is worked out at 64 bits with the width's limit.
ghost use Rattle.std.specs.Prelude.{◌≡◌};
ghost use Rattle.checked.specs.declared.types.Checked.TheVariants.{Fits, Overflowed};
ghost use Rattle.checked.specs.Value.{is_overflowed, sum_of, product_of, value_by, option_by};
ghost use Rattle.checked.specs.Paper.{paper_by, plain_by, plain_of, quotient_of, remainder_of, power_of, logarithm_of};
ghost use Rattle.checked.specs.Widths.{Wide, clamp_of, clamped_of};

use crate::limited;
use crate::refusal::Refusal;
use crate::types::{Checked, Checked64};
use crate::width::Width;

impl<N: Width> Checked<N> {
    pub fn new(v: N) -> Self
        ensures { value_by N.number result ≡ Fits (N.number v) }
    {
        Checked::Fits(v)
    }

    pub fn new_overflowed() -> Self
        ensures { value_by N.number result ≡ Overflowed }
    {
        Checked::Overflowed
    }

    pub fn is_overflowed(self) -> bool
        ensures { result ≡ is_overflowed (value_by N.number self) }
    {
        match self {
            Checked::Fits(_) => false,
            Checked::Overflowed => true,
        }
    }

    // The plain number; refused where there is none.
    pub fn unwrap(self) -> Result<N, Refusal>
        ensures { plain_by N.number result ≡ plain_of (value_by N.number self) }
    {
        match self {
            Checked::Fits(n) => Ok(n),
            Checked::Overflowed => Err(Refusal::Overflowed),
        }
    }

    pub fn to_option(self) -> Option<N>
        ensures { option_by N.number result ≡ value_by N.number self }
    {
        match self {
            Checked::Fits(n) => Some(n),
            Checked::Overflowed => None,
        }
    }

    pub fn add_value(self, v: N) -> Self
        ensures { value_by N.number result ≡ sum_of N.LIMIT (value_by N.number self) (Fits (N.number v)) }
    {
        Self::narrow(limited::add_value(N::LIMIT, self.wide(), v.wide()))
    }

    pub fn add_checked(self, v: Self) -> Self
        ensures { value_by N.number result ≡
            sum_of N.LIMIT (value_by N.number self) (value_by N.number v) }
    {
        Self::narrow(limited::add_checked(N::LIMIT, self.wide(), v.wide()))
    }

    pub fn mul_value(self, v: N) -> Self
        ensures { value_by N.number result ≡
            product_of N.LIMIT (value_by N.number self) (Fits (N.number v)) }
    {
        Self::narrow(limited::mul_value(N::LIMIT, self.wide(), v.wide()))
    }

    pub fn mul_checked(self, v: Self) -> Self
        ensures { value_by N.number result ≡
            product_of N.LIMIT (value_by N.number self) (value_by N.number v) }
    {
        Self::narrow(limited::mul_checked(N::LIMIT, self.wide(), v.wide()))
    }

    pub fn quotient(self, v: Self) -> Result<Self, Refusal>
        ensures { paper_by N.number result ≡
            quotient_of (value_by N.number self) (value_by N.number v) }
    {
        Self::narrow_answer(limited::quotient(self.wide(), v.wide()))
    }

    pub fn remainder(self, v: Self) -> Result<Self, Refusal>
        ensures { paper_by N.number result ≡
            remainder_of (value_by N.number self) (value_by N.number v) }
    {
        Self::narrow_answer(limited::remainder(self.wide(), v.wide()))
    }

    // self to the power of v.
    pub fn power(self, v: Self) -> Result<Self, Refusal>
        ensures { paper_by N.number result ≡
            power_of N.LIMIT (value_by N.number self) (value_by N.number v) }
    {
        Self::narrow_answer(limited::power(N::LIMIT, self.wide(), v.wide()))
    }

    // The logarithm of v in the base self.
    pub fn logarithm(self, v: Self) -> Result<Self, Refusal>
        ensures { paper_by N.number result ≡
            logarithm_of (value_by N.number self) (value_by N.number v) }
    {
        Self::narrow_answer(limited::logarithm(self.wide(), v.wide()))
    }

    // The same value at 64 bits.
    fn wide(self) -> Checked64
        ensures { Wide N.LIMIT (value_by N.number self) result }
    {
        match self {
            Checked::Fits(n) => Checked::Fits(n.wide()),
            Checked::Overflowed => Checked::Overflowed,
        }
    }

    // A value of 64 bits at this width.
    fn narrow(c: Checked64) -> Self
        ensures { value_by N.number result ≡ clamp_of N.LIMIT c }
    {
        match c {
            Checked::Fits(n) => N::narrow(n),
            Checked::Overflowed => Checked::Overflowed,
        }
    }

    fn narrow_answer(a: Result<Checked64, Refusal>) -> Result<Self, Refusal>
        ensures { paper_by N.number result ≡ clamped_of N.LIMIT a }
    {
        Ok(Self::narrow(a?))
    }
}
