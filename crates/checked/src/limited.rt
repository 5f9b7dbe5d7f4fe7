// The operations over a limit that is given as a number: the four widths share them, and so does whoever learns the width only
// when running. docs/ENTRIES.md names them, with the limit where they need it, so it is a parameter.
ghost use Rattle.std.specs.Prelude.{◌≡◌, ℕ, ◌+◌, ◌*◌, ◌%◌, ◌^◌, ◌≤◌, ◌<◌, max, min};
ghost use Rattle.whole.specs.Logarithm.{log_of};
ghost use Rattle.checked.specs.declared.types.Checked.TheVariants.{Fits, Overflowed};
ghost use Rattle.checked.specs.Value.{checked_of, sum_of, product_of, raised_of, both_of};
ghost use Rattle.checked.specs.Pair.{pair, pair_of};
ghost use Rattle.checked.specs.Paper.{paper, refused, quotient_of, remainder_of, power_of, logarithm_of, divided_by, left_by, log_by};

use crate::refusal::Refusal;
use crate::types::Checked64;

// 2^32: two numbers below it have a product of 64 bits, and it cuts a number of 64 bits into two halves.
const TWO_TO_32: u64 = 4294967296;

// ---- on numbers

// The checked value of a number.
pub fn checked_of(limit: u64, n: u64) -> Checked64
    ensures { result ≡ checked_of limit n }
{
    if n <= limit {
        Checked64::Fits(n)
    } else {
        Checked64::Overflowed
    }
}

// The sum of two numbers: what is left below the limit is compared, so that nothing wraps.
pub fn checked_add(limit: u64, a: u64, b: u64) -> Checked64
    ensures { result ≡ checked_of limit (a + b) }
{
    if a <= limit {
        if b <= limit - a {
            return Checked64::Fits(a + b);
        }
    }
    Checked64::Overflowed
}

// The product of two numbers. Where both are below 2^32, as they mostly are, one test says so, and nothing can wrap.
// docs/SPEED.md has the forms that were timed in its place.
pub fn checked_mul(limit: u64, a: u64, b: u64) -> Checked64
    ensures { result ≡ checked_of limit (a * b) }
{
    if (a | b) < TWO_TO_32 {
        return checked_of(limit, a * b);
    }
    mul_halves(limit, a.max(b), a.min(b))
}

// The product of two numbers from their halves of 32 bits. Where the lesser number has a high half, so has the greater,
// and these two alone bring the product beyond 64 bits. Where it has none, the middle part tells: the greater's high half
// by the lesser number, with what the low halves carry. It can't wrap, and where it is below 2^32 the parts joined are
// the product.
fn mul_halves(limit: u64, greater: u64, lesser: u64) -> Checked64
    requires { lesser ≤ greater }
    ensures { result ≡ checked_of limit (greater * lesser) }
{
    let low = greater % TWO_TO_32 * (lesser % TWO_TO_32);
    let middle = greater / TWO_TO_32 * (lesser % TWO_TO_32) + low / TWO_TO_32;
    if (lesser | middle) < TWO_TO_32 {
        let product = middle * TWO_TO_32 + low % TWO_TO_32;
        if product <= limit {
            return Checked64::Fits(product);
        }
    }
    Checked64::Overflowed
}

// The quotient of two numbers.
pub fn checked_div(a: u64, b: u64) -> Result<Checked64, Refusal>
    ensures { paper result ≡ divided_by a b }
{
    if b == 0 {
        return Err(Refusal::DivisorZero);
    }
    Ok(Checked64::Fits(a / b))
}

// The remainder of two numbers.
pub fn checked_rem(a: u64, b: u64) -> Result<Checked64, Refusal>
    ensures { paper result ≡ left_by a b }
{
    if b == 0 {
        return Err(Refusal::DivisorZero);
    }
    Ok(Checked64::Fits(a % b))
}

// The power of two numbers, a binary digit of the exponent at a time. The last square, which nobody needs, is not
// worked out, and a square that is too large ends the work. The first number is at most the second, unless that is 0:
// where the square fits, so does the first number with its digit, and only the last product can be too large.
pub fn checked_pow(limit: u64, base: u64, exponent: u64) -> Checked64
    ensures { result ≡ checked_of limit (base ^ exponent) }
{
    let mut first: u64 = 1;
    let mut second = base;
    let mut left = exponent;
    while 1 < left {
        match checked_square(limit, second) {
            Checked64::Fits(squared) => {
                first = with_digit(first, second, left);
                second = squared;
                left = left / 2;
            }
            Checked64::Overflowed => {
                return Checked64::Overflowed;
            }
        }
    }
    if left == 1 {
        return checked_mul(limit, first, second);
    }
    checked_of(limit, first)
}

// A number by itself: below 2^32 it can't wrap, and from there on no limit of 64 bits holds it.
fn checked_square(limit: u64, n: u64) -> Checked64
    ensures { result ≡ checked_of limit (n * n) }
{
    if n < TWO_TO_32 {
        return checked_of(limit, n * n);
    }
    Checked64::Overflowed
}

// The first number with the exponent's last digit.
fn with_digit(first: u64, second: u64, left: u64) -> u64
    requires { first * second ≤ 18446744073709551615 }
    ensures { result ≡ first * second ^ (left % 2) }
{
    if left % 2 == 0 {
        return first;
    }
    first * second
}

// The logarithm of two numbers.
pub fn checked_log(base: u64, n: u64) -> Result<Checked64, Refusal>
    ensures { paper result ≡ log_by base n }
{
    if base < 2 {
        return Err(Refusal::BaseBelowTwo);
    }
    Ok(Checked64::Fits(floor_log(base, n)))
}

// How often n can be divided by the base, by multiplying up. Each power is compared with the largest factor that the
// base has within 64 bits, so that the next doesn't wrap; a compiler makes a multiplication of this test.
fn floor_log(base: u64, n: u64) -> u64
    requires { 1 < base }
    ensures { result ≡ log_of base n }
{
    let mut power = base;
    let mut count: u64 = 0;
    while power <= n {
        count = count + 1;
        if u64::MAX / base < power {
            return count;
        }
        power = power * base;
    }
    count
}

// ---- on checked values

// The sum of a checked value and a number.
pub fn add_value(limit: u64, c: Checked64, n: u64) -> Checked64
    ensures { result ≡ sum_of limit c (Fits n) }
{
    match c {
        Checked64::Fits(m) => checked_add(limit, m, n),
        Checked64::Overflowed => Checked64::Overflowed, // whatever n is
    }
}

// The sum of two checked values: with an overflowed one it stays overflowed.
pub fn add_checked(limit: u64, a: Checked64, b: Checked64) -> Checked64
    ensures { result ≡ sum_of limit a b }
{
    match b {
        Checked64::Fits(n) => add_value(limit, a, n),
        Checked64::Overflowed => Checked64::Overflowed, // whatever a is
    }
}

// The product of a checked value and a number.
pub fn mul_value(limit: u64, c: Checked64, n: u64) -> Checked64
    ensures { result ≡ product_of limit c (Fits n) }
{
    match c {
        Checked64::Fits(m) => checked_mul(limit, m, n),
        Checked64::Overflowed => overflowed_times(n),
    }
}

// The product of two checked values. Both marks are looked at together, since most values fit.
pub fn mul_checked(limit: u64, a: Checked64, b: Checked64) -> Checked64
    ensures { result ≡ product_of limit a b }
{
    match both(a, b) {
        Some((m, n)) => checked_mul(limit, m, n),
        None => mul_apart(limit, a, b),
    }
}

// The same, one value after the other: an overflowed one by 0 is 0, whichever comes first.
fn mul_apart(limit: u64, a: Checked64, b: Checked64) -> Checked64
    ensures { result ≡ product_of limit a b }
{
    match b {
        Checked64::Fits(n) => mul_value(limit, a, n),
        Checked64::Overflowed => times_overflowed(a),
    }
}

// Any number above a limit, times n.
fn overflowed_times(n: u64) -> Checked64
    ensures { (limit : ℕ) → result ≡ product_of limit Overflowed (Fits n) }
{
    if n == 0 {
        return Checked64::Fits(0);
    }
    Checked64::Overflowed
}

// A checked value, times any number above a limit.
fn times_overflowed(a: Checked64) -> Checked64
    ensures { (limit : ℕ) → result ≡ product_of limit a Overflowed }
{
    match a {
        Checked64::Fits(m) => overflowed_times(m),
        Checked64::Overflowed => Checked64::Overflowed,
    }
}

// Both numbers, where both fit.
pub fn both(a: Checked64, b: Checked64) -> Option<(u64, u64)>
    ensures { pair result ≡ pair_of a b }
{
    match (a, b) {
        (Checked64::Fits(m), Checked64::Fits(n)) => Some((m, n)),
        _ => None,
    }
}

// The quotient of two checked values. The left has to fit, whatever the right is: that is asked before a divisor 0 is
// looked at. Any number above the limit goes into it 0 times.
pub fn quotient(a: Checked64, b: Checked64) -> Result<Checked64, Refusal>
    ensures { paper result ≡ quotient_of a b }
{
    match (a, b) {
        (Checked64::Fits(l), Checked64::Fits(r)) => checked_div(l, r),
        (Checked64::Fits(_), Checked64::Overflowed) => Ok(Checked64::Fits(0)),
        (Checked64::Overflowed, _) => Err(Refusal::Overflowed),
    }
}

// The remainder of two checked values; the left has to fit, and by any number above the limit it is left whole.
pub fn remainder(a: Checked64, b: Checked64) -> Result<Checked64, Refusal>
    ensures { paper result ≡ remainder_of a b }
{
    match (a, b) {
        (Checked64::Fits(l), Checked64::Fits(r)) => checked_rem(l, r),
        (Checked64::Fits(l), Checked64::Overflowed) => Ok(Checked64::Fits(l)),
        (Checked64::Overflowed, _) => Err(Refusal::Overflowed),
    }
}

// a to the power of b: never refused, and overflowed where it is above the limit.
pub fn power(limit: u64, a: Checked64, b: Checked64) -> Result<Checked64, Refusal>
    ensures { paper result ≡ power_of limit a b }
{
    Ok(pow_checked(limit, a, b))
}

// The same as a value.
pub fn pow_checked(limit: u64, a: Checked64, b: Checked64) -> Checked64
    ensures { result ≡ raised_of limit a b }
{
    match a {
        Checked64::Fits(l) => power_by(limit, l, b),
        Checked64::Overflowed => overflowed_by(limit, b),
    }
}

fn power_by(limit: u64, l: u64, b: Checked64) -> Checked64
    ensures { result ≡ raised_of limit (Fits l) b }
{
    match b {
        Checked64::Fits(r) => checked_pow(limit, l, r),
        Checked64::Overflowed => to_overflowed(limit, l),
    }
}

// A number to the power of any number above the limit: 0 and 1 stay what they are, and any other grows above it.
fn to_overflowed(limit: u64, l: u64) -> Checked64
    ensures { result ≡ raised_of limit (Fits l) Overflowed }
{
    if l < 2 {
        return checked_of(limit, l);
    }
    Checked64::Overflowed
}

fn overflowed_by(limit: u64, b: Checked64) -> Checked64
    ensures { result ≡ raised_of limit Overflowed b }
{
    match b {
        Checked64::Fits(r) => overflowed_to(limit, r),
        Checked64::Overflowed => Checked64::Overflowed,
    }
}

// Any number above the limit, to the power of r: only to the 0 it doesn't stay above it.
fn overflowed_to(limit: u64, r: u64) -> Checked64
    ensures { result ≡ raised_of limit Overflowed (Fits r) }
{
    if r == 0 {
        return checked_of(limit, 1);
    }
    Checked64::Overflowed
}

// The logarithm of b in the base a; b has to fit, and in any base above the limit its logarithm is 0.
pub fn logarithm(a: Checked64, b: Checked64) -> Result<Checked64, Refusal>
    ensures { paper result ≡ logarithm_of a b }
{
    match (a, b) {
        (Checked64::Fits(base), Checked64::Fits(n)) => checked_log(base, n),
        (Checked64::Overflowed, Checked64::Fits(_)) => Ok(Checked64::Fits(0)),
        (_, Checked64::Overflowed) => Err(Refusal::Overflowed),
    }
}
