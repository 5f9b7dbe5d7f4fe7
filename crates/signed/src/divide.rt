// Truncating division of signed numbers. The quotient of the smallest number by -1 is the one that does not fit: it is refused,
// and its remainder is 0, which the machine's own remainder does not give.
ghost use Rattle.std.specs.Prelude.{◌≡◌};
ghost use Rattle.signed.specs.Signed.{answer, answer_by, narrowed_to, quotient_of, remainder_of};

use crate::width::SignedWidth;
use checked::refusal::Refusal;

// The truncating quotient, at any width: that at 64 bits, if it is in the width's range.
pub fn quotient<N: SignedWidth>(a: N, b: N) -> Result<N, Refusal>
    ensures { answer_by N.number result ≡ quotient_of N.bits (N.number a) (N.number b) }
{
    narrowed(quotient64(a.wide(), b.wide()))
}

// What it leaves, which is in the range of every width that its operands are in.
pub fn remainder<N: SignedWidth>(a: N, b: N) -> Result<N, Refusal>
    ensures { answer_by N.number result ≡ remainder_of (N.number a) (N.number b) }
{
    narrowed(remainder64(a.wide(), b.wide()))
}

// An answer of 64 bits at a width: 4 where its number is outside the range.
fn narrowed<N: SignedWidth>(wide: Result<i64, Refusal>) -> Result<N, Refusal>
    ensures { answer_by N.number result ≡ narrowed_to N.bits wide }
{
    match wide {
        Ok(z) => N::narrow(z).ok_or(Refusal::QuotientTooLarge),
        Err(refusal) => Err(refusal),
    }
}

// std's `checked_div` has one `None` for both refusals, so both are tested here.
fn quotient64(a: i64, b: i64) -> Result<i64, Refusal>
    ensures { answer result ≡ quotient_of 64 a b }
{
    if b == 0 {
        return Err(Refusal::DivisorZero);
    }
    if b == -1 {
        if a == i64::MIN {
            return Err(Refusal::QuotientTooLarge);
        }
    }
    Ok(a / b)
}

// std's `checked_rem` gives nothing by -1 for the smallest number, of which a 0 would have to be made all the same.
fn remainder64(a: i64, b: i64) -> Result<i64, Refusal>
    ensures { answer result ≡ remainder_of a b }
{
    if b == 0 {
        return Err(Refusal::DivisorZero);
    }
    if b == -1 {
        return Ok(0);
    }
    Ok(a % b)
}
