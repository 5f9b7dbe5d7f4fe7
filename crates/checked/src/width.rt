// A width: the unsigned numbers of so many bits, as whole numbers and as numbers of 64 bits. What is said and proved of
// checked numbers is said and proved once, of any width. Each width has an impl written out, since the project may have no
// impl that a macro of its own writes.
ghost use Rattle.std.specs.Prelude.{◌≡◌, ℕ, ◌≤◌};
ghost use Rattle.checked.specs.declared.types.Checked.TheVariants.{Fits};
ghost use Rattle.checked.specs.Value.{checked_of, limit_of, value_by};

use crate::types::Checked;

pub trait Width: Copy {
    // The whole number that a number is.
    ghost number: { Self → ℕ };

    // The largest one.
    const LIMIT: u64;

    ghost LIMIT: { ℕ };

    // The same number at 64 bits.
    fn wide(self) -> u64
        ensures same { result ≡ number self }
        ensures within { result ≤ LIMIT };

    // The number at this width, if it fits.
    fn narrow(n: u64) -> Checked<Self>
        ensures { value_by number result ≡ checked_of LIMIT n };

    // No two numbers are the same whole number.
    ghost apart: { (x y : Self) → number x ≡ number y → x ≡ y };
}

impl Width for u8 {
    ghost number = { λ n. n };

    const LIMIT: u64 = u8::MAX as u64;

    ghost LIMIT = { limit_of 8 };

    fn wide(self) -> u64 {
        u64::from(self)
    }

    fn narrow(n: u64) -> Checked<u8> {
        match u8::try_from(n) {
            Ok(fitting) => Checked::Fits(fitting),
            Err(_) => Checked::Overflowed,
        }
    }

    ghost apart = { λ x y e. e };
}

impl Width for u16 {
    ghost number = { λ n. n };

    const LIMIT: u64 = u16::MAX as u64;

    ghost LIMIT = { limit_of 16 };

    fn wide(self) -> u64 {
        u64::from(self)
    }

    fn narrow(n: u64) -> Checked<u16> {
        match u16::try_from(n) {
            Ok(fitting) => Checked::Fits(fitting),
            Err(_) => Checked::Overflowed,
        }
    }

    ghost apart = { λ x y e. e };
}

impl Width for u32 {
    ghost number = { λ n. n };

    const LIMIT: u64 = u32::MAX as u64;

    ghost LIMIT = { limit_of 32 };

    fn wide(self) -> u64 {
        u64::from(self)
    }

    fn narrow(n: u64) -> Checked<u32> {
        match u32::try_from(n) {
            Ok(fitting) => Checked::Fits(fitting),
            Err(_) => Checked::Overflowed,
        }
    }

    ghost apart = { λ x y e. e };
}

impl Width for u64 {
    ghost number = { λ n. n };

    const LIMIT: u64 = u64::MAX;

    ghost LIMIT = { limit_of 64 };

    fn wide(self) -> u64 {
        self
    }

    fn narrow(n: u64) -> Checked<u64> {
        Checked::Fits(n)
    }

    ghost apart = { λ x y e. e };
}
