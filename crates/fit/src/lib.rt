// Whether a power fits 64 bits, from a table and without working the power out.
#![tactic(auto)]

ghost use Rattle.std.specs.Prelude.{◌≡◌, ◌<◌};
ghost use Rattle.fit.specs.Fit.{power_fits, largest_bases};

// The largest base whose power fits 64 bits, for each exponent from 2 to 63.
const LARGEST_BASES: [u64; 62] = [
    4294967295, 2642245, 65535, 7131, 1625, 565, 255, 138, 84, 56, 40, 30, 23, 19, 15, 13, 11, 10,
    9, 8, 7, 6, 6, 5, 5, 5, 4, 4, 4, 4, 3, 3, 3, 3, 3, 3, 3, 3, 3, 2, 2, 2, 2, 2, 2, 2, 2, 2, 2, 2,
    2, 2, 2, 2, 2, 2, 2, 2, 2, 2, 2, 2,
];

// Yes for the exponents 0 and 1; for 64 and above only the bases 0 and 1 fit; the table has the others.
pub fn power_fits(base: u64, exponent: u64) -> bool
    ensures { result ≡ power_fits base exponent }
{
    if exponent < 2 {
        return true;
    }
    if 63 < exponent {
        return base < 2;
    }
    fits_by(&LARGEST_BASES, base, exponent)
}

// By the table, which has the largest base for each exponent from 2 on.
fn fits_by(bases: &[u64; 62], base: u64, exponent: u64) -> bool
    requires bases_value { bases.now ≡ largest_bases }
    requires lt_exponent { (1 < exponent) × (exponent < 64) }
    ensures { result ≡ power_fits base exponent }
{
    let at = (exponent - 2) as usize;
    base <= bases[at]
}
