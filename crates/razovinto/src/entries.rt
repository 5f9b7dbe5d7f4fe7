// What the host calls, at 64 bits on plain numbers. Each returns 0 and writes 16 bytes to the lent slice (the number, its lowest
// byte first, the mark, seven zeros), or returns the refusal's number and writes nothing. Bytes past the sixteenth stay.
ghost use Rattle.std.specs.Prelude.{◌≡◌};
ghost use Rattle.checked.specs.Paper.{sums_of, products_of, divided_by, left_by, powers_of, log_by};
ghost use Rattle.checked.specs.Value.{limit_of};
ghost use Rattle.razovinto.specs.Entry.{returned, afterwards};

use crate::result::{put_answer, too_short};
use checked::limited::{
    checked_add, checked_div, checked_log, checked_mul, checked_pow, checked_rem,
};

// What an entry writes has this many bytes. A slice with fewer is refused before anything else is looked at.
const RESULT_LENGTH: usize = 16;

pub fn razovinto_sum(left: u64, right: u64, res: &mut [u8]) -> u32
    ensures value { result ≡ returned (sums_of (limit_of 64) left right) res.old }
    ensures res_new { res.new ≡ afterwards (sums_of (limit_of 64) left right) res.old }
{
    if res.len() < RESULT_LENGTH {
        return too_short();
    }
    put_answer(res, Ok(checked_add(u64::MAX, left, right)))
}

pub fn razovinto_product(left: u64, right: u64, res: &mut [u8]) -> u32
    ensures value { result ≡ returned (products_of (limit_of 64) left right) res.old }
    ensures res_new { res.new ≡ afterwards (products_of (limit_of 64) left right) res.old }
{
    if res.len() < RESULT_LENGTH {
        return too_short();
    }
    put_answer(res, Ok(checked_mul(u64::MAX, left, right)))
}

pub fn razovinto_quotient(left: u64, right: u64, res: &mut [u8]) -> u32
    ensures value { result ≡ returned (divided_by left right) res.old }
    ensures res_new { res.new ≡ afterwards (divided_by left right) res.old }
{
    if res.len() < RESULT_LENGTH {
        return too_short();
    }
    put_answer(res, checked_div(left, right))
}

pub fn razovinto_remainder(left: u64, right: u64, res: &mut [u8]) -> u32
    ensures value { result ≡ returned (left_by left right) res.old }
    ensures res_new { res.new ≡ afterwards (left_by left right) res.old }
{
    if res.len() < RESULT_LENGTH {
        return too_short();
    }
    put_answer(res, checked_rem(left, right))
}

pub fn razovinto_power(base: u64, exponent: u64, res: &mut [u8]) -> u32
    ensures value { result ≡ returned (powers_of (limit_of 64) base exponent) res.old }
    ensures res_new { res.new ≡ afterwards (powers_of (limit_of 64) base exponent) res.old }
{
    if res.len() < RESULT_LENGTH {
        return too_short();
    }
    put_answer(res, Ok(checked_pow(u64::MAX, base, exponent)))
}

pub fn razovinto_logarithm(base: u64, argument: u64, res: &mut [u8]) -> u32
    ensures value { result ≡ returned (log_by base argument) res.old }
    ensures res_new { res.new ≡ afterwards (log_by base argument) res.old }
{
    if res.len() < RESULT_LENGTH {
        return too_short();
    }
    put_answer(res, checked_log(base, argument))
}
