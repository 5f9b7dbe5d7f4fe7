// Rows of plain lists.
ghost use Rattle.std.specs.Prelude.{◌≡◌};
ghost use Rattle.rows.specs.Rows.{lists, code_for, numbers_after, marks_after, codes_after};

use rows::row::row;
use rows::types::code;

// 0 is returned, or the refusal's number, whose place is 0.
pub fn razovinto_row(
    kinds: &[u8],
    lefts: &[u64],
    rights: &[u64],
    numbers: &mut [u64],
    marks: &mut [u8],
    codes: &mut [u8],
) -> u32
    ensures value { result ≡
        code_for (lists kinds.now lefts.now rights.now) numbers.old
        marks.old codes.old }
    ensures numbers_new { numbers.new ≡
        numbers_after (lists kinds.now lefts.now rights.now) numbers.old
        marks.old codes.old }
    ensures marks_new { marks.new ≡
        marks_after (lists kinds.now lefts.now rights.now) numbers.old
        marks.old codes.old }
    ensures codes_new { codes.new ≡
        codes_after (lists kinds.now lefts.now rights.now) numbers.old
        marks.old codes.old }
{
    code(row(kinds, lefts, rights, numbers, marks, codes))
}
