// Floats as exact decimals. Each float is one, if a long one at times. README promises exact decimals, and std's
// Display stops at the shortest that reads back the same.
ghost use Rattle.std.specs.Prelude.{◌≤◌};

use crate::line::Digits;
use std::fmt;

// The smallest float has 149 digits behind the point, and the greatest 39 before it.
const DIGITS: usize = 152;

// A digit times a factor.
fn product(digit: u8, factor: u8) -> u64
    ensures { result ≤ 65025 }
{
    u64::from(digit) * u64::from(factor)
}

// The number that decimal digits stand for, the lowest first, times a factor, and so much more.
fn multiply(digits: &mut [u8; DIGITS], factor: u8, more: u32) {
    let mut carry = u64::from(more);
    for digit in digits.iter_mut() {
        let n = product(*digit, factor) + carry;
        *digit = (n % 10) as u8;
        carry = n / 10;
    }
}

// The digits of a size times a factor to the power of so many, the lowest first.
fn raised(size: u32, factor: u8, times: u32) -> [u8; DIGITS] {
    let mut digits = [0u8; DIGITS];
    multiply(&mut digits, 0, size);
    for _ in 0..times {
        multiply(&mut digits, factor, 0);
    }
    digits
}

// A decimal's digits, the lowest first, with the point before the last `point` of them.
#[derive(Clone, Copy)]
struct Decimal {
    digits: [u8; DIGITS],
    point: usize,
}

impl fmt::Display for Decimal {
    // Zeros that nothing stands before are left out, but for the last one before the point, and so are those that nothing but
    // zeros stands after behind the point.
    fn fmt<W: fmt::Write>(&self, f: &mut fmt::Formatter<W>) -> fmt::Result {
        let point = self.point;
        let digits = &self.digits;
        let lowest = digits.iter().position(|digit| *digit != 0).unwrap_or(point);
        let highest = digits
            .iter()
            .rposition(|digit| *digit != 0)
            .unwrap_or(point);
        for place in (lowest.min(point)..=highest.max(point)).rev() {
            if place < point && place + 1 == point {
                write!(f, ".")?;
            }
            let digit = Digits(u64::from(digits.get(place).copied().unwrap_or(0)));
            write!(f, "{digit}")?;
        }
        Ok(())
    }
}

// The number with these bits.
#[derive(Clone, Copy)]
pub(crate) struct Exact(pub(crate) u32);

impl fmt::Display for Exact {
    // The number is its size times 2^(scale - 150). A fraction of 2^n is as many times 5^n of 10^n.
    fn fmt<W: fmt::Write>(&self, f: &mut fmt::Formatter<W>) -> fmt::Result {
        let fraction = self.0 % 0x80_0000;
        let (size, scale) = match self.0 / 0x80_0000 % 256 {
            0 => (fraction, 1),
            scale => (fraction + 0x80_0000, scale),
        };
        let decimal = if scale < 150 {
            Decimal {
                digits: raised(size, 5, 150 - scale),
                point: (150 - scale) as usize,
            }
        } else {
            Decimal {
                digits: raised(size, 2, scale - 150),
                point: 0,
            }
        };
        if 0x8000_0000 <= self.0 {
            write!(f, "-")?;
        }
        write!(f, "{decimal}")
    }
}
