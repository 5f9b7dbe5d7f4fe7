// Rows of records for C: the export calls the library's function of its name and states its clauses again.
#![tactic(auto)]

ghost use Rattle.std.specs.Prelude.{◌≡◌};
ghost use Rattle.rows.specs.Rows.{fields, code_for, numbers_after, marks_after, codes_after};

use rows::types::OperationRecord;

#[unsafe(no_mangle)]
pub extern "C" fn razovinto_row_of_records(
    operations: &[OperationRecord],
    numbers: &mut [u64],
    marks: &mut [u8],
    codes: &mut [u8],
) -> u32
    ensures value { result ≡
        code_for (fields operations.now) numbers.old marks.old codes.old }
    ensures numbers_new { numbers.new ≡
        numbers_after (fields operations.now) numbers.old marks.old
        codes.old }
    ensures marks_new { marks.new ≡
        marks_after (fields operations.now) numbers.old marks.old codes.old }
    ensures codes_new { codes.new ≡
        codes_after (fields operations.now) numbers.old marks.old codes.old }
{
    rows::records::razovinto_row_of_records(operations, numbers, marks, codes)
}
