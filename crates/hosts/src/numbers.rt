// Entries on single numbers.
ghost use Rattle.std.specs.Prelude.{◌≡◌, ◌≤◌, cond, length};
ghost use Rattle.fit.specs.Fit.{power_fits};
ghost use Rattle.signed.specs.Signed.{answer, quotient_of, remainder_of};
ghost use Rattle.hosts.specs.Entry.{signed_code, signed_list};

use checked::refusal::Refusal;
use entry::room::too_short;
use fit::power_fits;
use signed::divide::{quotient, remainder};

// 1 where the power fits 64 bits, 0 where it doesn't.
pub fn razovinto_power_fits(base: u64, exponent: u64) -> u32
    ensures { result ≡ cond (power_fits base exponent) 1 0 }
{
    u32::from(power_fits(base, exponent))
}

// The number is written and 0 returned, or the refusal's number is, as C has it, and the list stays.
fn put_signed(res: &mut [i64], divided: Result<i64, Refusal>) -> u32
    requires { 1 ≤ length res.old }
    ensures value { result ≡ signed_code (answer divided) res.old }
    ensures res_new { res.new ≡ signed_list (answer divided) res.old }
{
    match divided {
        Ok(n) => {
            res[0] = n;
            0
        }
        Err(refusal) => refusal.number(),
    }
}

// The truncating quotient. The smallest number by -1 is refused with 4.
pub fn razovinto_signed_quotient(left: i64, right: i64, res: &mut [i64]) -> u32
    ensures value { result ≡ signed_code (quotient_of 64 left right) res.old }
    ensures res_new { res.new ≡ signed_list (quotient_of 64 left right) res.old }
{
    if res.is_empty() {
        return too_short();
    }
    put_signed(res, quotient(left, right))
}

// What it leaves, which for the smallest number by -1 is 0.
pub fn razovinto_signed_remainder(left: i64, right: i64, res: &mut [i64]) -> u32
    ensures value { result ≡ signed_code (remainder_of left right) res.old }
    ensures res_new { res.new ≡ signed_list (remainder_of left right) res.old }
{
    if res.is_empty() {
        return too_short();
    }
    put_signed(res, remainder(left, right))
}
