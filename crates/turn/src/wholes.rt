// Readings that are whole numbers from 0 to 16,777,215, as a field takes them. They are tested as floats, by a
// sum: the language has the machine's own cast to a number only of a float that is one.
ghost use Rattle.std.specs.Prelude.{◌≡◌, true, cond, length};
ghost use Rattle.places.specs.Places.{every};
ghost use Rattle.turn.specs.Wholes.{is_whole, value_of, is_whole_at, rounded_of};

// From 8,388,608 on every float is a whole number. Below it a sum with 8,388,608 has no room for a fraction.
fn rounded(x: f32) -> f32
    ensures { result ≡ rounded_of x }
{
    if 8388608.0 <= x {
        x
    } else {
        (x + 8388608.0) - 8388608.0
    }
}

// Whether a float is a whole number from 0 to 16,777,215. The two zeros are; NaN and the infinities aren't.
pub fn whole(x: f32) -> bool
    ensures { result ≡ is_whole x }
{
    0.0 <= x && x < 16777216.0 && rounded(x) == x
}

// 0 for such a whole number, and 1 for any other float.
fn unfit(x: f32) -> u32
    ensures { result ≡ cond (is_whole x) 0 1 }
{
    if whole(x) { 0 } else { 1 }
}

// Whether every reading is such a whole number. There is no early exit; they are joined as numbers of 32 bits: with
// `bool` in their place, which was tried, `turn` took 1.2 of the time.
pub fn all_whole(level: &[f32]) -> bool
    ensures { result ≡ every (is_whole_at level.now) (length level.now) }
{
    let mut any: u32 = 0;
    for x in level {
        any |= unfit(*x);
    }
    any == 0
}

// Its value. Negative zero gives 0.
pub(crate) fn value(x: f32) -> u64
    requires { is_whole x ≡ true }
    ensures { result ≡ value_of x }
{
    if x == 0.0 { 0 } else { (x as u32) as u64 }
}
