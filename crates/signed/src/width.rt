// A width: the signed numbers of so many bits, as whole numbers and as numbers of 64 bits. Each width has an impl written
// out, since the project may have no impl that a macro of its own writes.
ghost use Rattle.std.specs.Prelude.{◌≡◌, true, ℕ, ◌≤◌, ℤ};
ghost use Rattle.std.proofs.Common.{rules};
ghost use Rattle.signed.specs.Signed.{in_range, option_by, at_width};

pub trait SignedWidth: Copy {
    // The whole number that a number is.
    ghost number: { Self → ℤ };

    ghost bits: { ℕ };

    // The same number at 64 bits.
    fn wide(self) -> i64
        ensures same { result ≡ number self }
        ensures within { in_range bits result ≡ true };

    // The number at this width, if it is in its range.
    fn narrow(z: i64) -> Option<Self>
        ensures { option_by number result ≡ at_width bits z };

    // No width here has more bits than numbers are worked out at.
    ghost at_most_64: { bits ≤ 64 };

    // No two numbers are the same whole number.
    ghost apart: { (x y : Self) → number x ≡ number y → x ≡ y };
}

impl SignedWidth for i8 {
    ghost number = { λ z. z };

    ghost bits = { 8 };

    fn wide(self) -> i64 {
        i64::from(self)
    }

    fn narrow(z: i64) -> Option<i8> {
        i8::try_from(z).ok()
    }

    ghost at_most_64 = { Prim.search rules };

    ghost apart = { λ x y e. e };
}

impl SignedWidth for i16 {
    ghost number = { λ z. z };

    ghost bits = { 16 };

    fn wide(self) -> i64 {
        i64::from(self)
    }

    fn narrow(z: i64) -> Option<i16> {
        i16::try_from(z).ok()
    }

    ghost at_most_64 = { Prim.search rules };

    ghost apart = { λ x y e. e };
}

impl SignedWidth for i32 {
    ghost number = { λ z. z };

    ghost bits = { 32 };

    fn wide(self) -> i64 {
        i64::from(self)
    }

    fn narrow(z: i64) -> Option<i32> {
        i32::try_from(z).ok()
    }

    ghost at_most_64 = { Prim.search rules };

    ghost apart = { λ x y e. e };
}

impl SignedWidth for i64 {
    ghost number = { λ z. z };

    ghost bits = { 64 };

    fn wide(self) -> i64 {
        self
    }

    fn narrow(z: i64) -> Option<i64> {
        Some(z)
    }

    ghost at_most_64 = { Prim.search rules };

    ghost apart = { λ x y e. e };
}
