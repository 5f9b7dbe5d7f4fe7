// Rows of operation records, as a host program in C keeps them. C has numbers and lists that it lends: so the entry returns a
// number, and writes to three lists.
ghost use Rattle.std.specs.Prelude.{◌≡◌};
ghost use Rattle.rows.specs.Rows.{fields, code_for, numbers_after, marks_after, codes_after};
ghost use Rattle.rows.specs.Answers.{rowed};

use crate::row::{begin, clear, step};
use crate::types::{OperationRecord, code};
use checked::refusal::Refusal;

// The row of the records' fields; each record is read where it lies. What `row` and this share is in `begin`, `clear` and
// `step`: one function over both forms of operations would be longer than the loop that is left.
fn of_records(
    operations: &[OperationRecord],
    numbers: &mut [u64],
    marks: &mut [u8],
    codes: &mut [u8],
) -> Result<(), Refusal>
    ensures value { rowed result ≡
        code_for (fields operations.now) numbers.old marks.old codes.old }
    ensures numbers_new { numbers.new ≡
        numbers_after (fields operations.now) numbers.old marks.old
        codes.old }
    ensures marks_new { marks.new ≡
        marks_after (fields operations.now) numbers.old marks.old codes.old }
    ensures codes_new { codes.new ≡
        codes_after (fields operations.now) numbers.old marks.old codes.old }
{
    let count = operations.len();
    begin(count, count, count, numbers.len(), marks.len(), codes.len())?;
    clear(count, marks, codes);
    for (i, operation) in operations.iter().enumerate() {
        step(*operation, &mut numbers[i], &mut marks[i], &mut codes[i]);
    }
    Ok(())
}

// 0 is returned, or the refusal's number, whose place is 0.
pub fn razovinto_row_of_records(
    operations: &[OperationRecord],
    numbers: &mut [u64],
    marks: &mut [u8],
    codes: &mut [u8],
) -> u32
    ensures value { result ≡
        code_for (fields operations.now) numbers.old marks.old codes.old }
    ensures numbers_new { numbers.new ≡
        numbers_after (fields operations.now) numbers.old marks.old
        codes.old }
    ensures marks_new { marks.new ≡
        marks_after (fields operations.now) numbers.old marks.old codes.old }
    ensures codes_new { codes.new ≡
        codes_after (fields operations.now) numbers.old marks.old codes.old }
{
    code(of_records(operations, numbers, marks, codes))
}
