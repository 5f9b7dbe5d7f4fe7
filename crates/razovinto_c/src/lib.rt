// The six operations for C: each export calls the library's function of its name and states its clauses again.
#![tactic(auto)]

ghost use Rattle.std.specs.Prelude.{◌≡◌};
ghost use Rattle.checked.specs.Paper.{sums_of, products_of, divided_by, left_by, powers_of, log_by};
ghost use Rattle.checked.specs.Value.{limit_of};
ghost use Rattle.razovinto.specs.Entry.{returned, afterwards};

#[unsafe(no_mangle)]
pub extern "C" fn razovinto_sum(left: u64, right: u64, res: &mut [u8]) -> u32
    ensures value { result ≡ returned (sums_of (limit_of 64) left right) res.old }
    ensures res_new { res.new ≡ afterwards (sums_of (limit_of 64) left right) res.old }
{
    razovinto::entries::razovinto_sum(left, right, res)
}

#[unsafe(no_mangle)]
pub extern "C" fn razovinto_product(left: u64, right: u64, res: &mut [u8]) -> u32
    ensures value { result ≡ returned (products_of (limit_of 64) left right) res.old }
    ensures res_new { res.new ≡ afterwards (products_of (limit_of 64) left right) res.old }
{
    razovinto::entries::razovinto_product(left, right, res)
}

#[unsafe(no_mangle)]
pub extern "C" fn razovinto_quotient(left: u64, right: u64, res: &mut [u8]) -> u32
    ensures value { result ≡ returned (divided_by left right) res.old }
    ensures res_new { res.new ≡ afterwards (divided_by left right) res.old }
{
    razovinto::entries::razovinto_quotient(left, right, res)
}

#[unsafe(no_mangle)]
pub extern "C" fn razovinto_remainder(left: u64, right: u64, res: &mut [u8]) -> u32
    ensures value { result ≡ returned (left_by left right) res.old }
    ensures res_new { res.new ≡ afterwards (left_by left right) res.old }
{
    razovinto::entries::razovinto_remainder(left, right, res)
}

#[unsafe(no_mangle)]
pub extern "C" fn razovinto_power(base: u64, exponent: u64, res: &mut [u8]) -> u32
    ensures value { result ≡ returned (powers_of (limit_of 64) base exponent) res.old }
    ensures res_new { res.new ≡ afterwards (powers_of (limit_of 64) base exponent) res.old }
{
    razovinto::entries::razovinto_power(base, exponent, res)
}

#[unsafe(no_mangle)]
pub extern "C" fn razovinto_logarithm(base: u64, argument: u64, res: &mut [u8]) -> u32
    ensures value { result ≡ returned (log_by base argument) res.old }
    ensures res_new { res.new ≡ afterwards (log_by base argument) res.old }
{
    razovinto::entries::razovinto_logarithm(base, argument, res)
}
