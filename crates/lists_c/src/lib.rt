// Rows of plain lists for C: the export calls the library's function of its name and states its clauses again.
#![tactic(auto)]

ghost use Rattle.std.specs.Prelude.{◌≡◌};
ghost use Rattle.rows.specs.Rows.{lists, code_for, numbers_after, marks_after, codes_after};

#[unsafe(no_mangle)]
pub extern "C" fn razovinto_row(
    kinds: &[u8],
    lefts: &[u64],
    rights: &[u64],
    numbers: &mut [u64],
    marks: &mut [u8],
    codes: &mut [u8],
) -> u32
    ensures value { result ≡
        code_for (lists kinds.now lefts.now rights.now) numbers.old
        marks.old codes.old }
    ensures numbers_new { numbers.new ≡
        numbers_after (lists kinds.now lefts.now rights.now) numbers.old
        marks.old codes.old }
    ensures marks_new { marks.new ≡
        marks_after (lists kinds.now lefts.now rights.now) numbers.old
        marks.old codes.old }
    ensures codes_new { codes.new ≡
        codes_after (lists kinds.now lefts.now rights.now) numbers.old
        marks.old codes.old }
{
    lists::lists::razovinto_row(kinds, lefts, rights, numbers, marks, codes)
}
