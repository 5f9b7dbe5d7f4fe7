// What an entry writes to the lent slice, and what it returns.
ghost use Rattle.std.specs.Prelude.{◌≡◌, ◌≤◌, length};
ghost use Rattle.checked.specs.Paper.{paper, given};
ghost use Rattle.razovinto.specs.Entry.{returned, afterwards};

use checked::refusal::Refusal;
use checked::types::Checked64;
use store::bytes::put_long;

// A value's number, and its mark with seven zeros, which are the mark as a number of eight bytes: each becomes one
// store. The two cases write in another order, so that the compiler keeps each apart with its own literals.
fn put_value(res: &mut [u8], value: Checked64)
    requires { 16 ≤ length res.old }
    ensures { res.new ≡ afterwards (given value) res.old }
{
    match value {
        Checked64::Fits(n) => {
            put_long(res, 0, n);
            put_long(res, 8, 0);
        }
        Checked64::Overflowed => {
            put_long(res, 8, 1);
            put_long(res, 0, 0);
        }
    }
}

// The answer's value is written and 0 returned, or the refusal's number. What is returned is a number, since the entries
// for C return it. There is room: each entry looks at that before it works anything out.
pub(crate) fn put_answer(res: &mut [u8], answer: Result<Checked64, Refusal>) -> u32
    requires { 16 ≤ length res.old }
    ensures value { result ≡ returned (paper answer) res.old }
    ensures res_new { res.new ≡ afterwards (paper answer) res.old }
{
    match answer {
        Ok(value) => {
            put_value(res, value);
            0
        }
        Err(refusal) => refusal.number(),
    }
}

// What is returned where the slice is too short, whatever the operation would come to.
pub(crate) fn too_short() -> u32
    ensures { result ≡ 19 }
{
    Refusal::ListTooShort.number()
}
