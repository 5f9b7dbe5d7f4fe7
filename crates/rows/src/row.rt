// A row: its lists' lengths are looked at first, and then each operation is worked out by itself.
ghost use Rattle.std.specs.Prelude.{◌≡◌, ◌≤◌, ◌<◌, length};
ghost use Rattle.checked.specs.Paper.{paper, given};
ghost use Rattle.rows.specs.Rows.{lists, element_of, code_of, code_for, numbers_after, marks_after, codes_after};
ghost use Rattle.rows.specs.Answers.{rowed};
ghost use Rattle.rows.specs.Turns.{cleared, kept};

use crate::element::answer;
use crate::types::OperationRecord;
use checked::refusal::Refusal;
use checked::types::Checked64;
use store::bytes::put_zeros;

// The most operations of a row.
const MOST: usize = 4096;

// What stands in the place of a refused operation's number.
const NO_NUMBER: u64 = 0;

// Why a row of these lengths is refused, if it is: of kinds, lefts and rights, and of the lists that are to hold
// numbers, marks and codes. Six lengths and no lists: each list is lent apart, and `row` and `of_records` have other ones.
#[tactic(auto, using(std::proofs::lemmas::Bool::Decides::nat_tests), unfolding(crate::specs::Rows::code_of))]
pub(crate) fn begin(
    kinds: usize,
    lefts: usize,
    rights: usize,
    numbers: usize,
    marks: usize,
    codes: usize,
) -> Result<(), Refusal>
    ensures { rowed result ≡ code_of kinds lefts rights numbers marks codes }
{
    if kinds != lefts || kinds != rights {
        return Err(Refusal::LengthsDiffer);
    }
    if kinds == 0 || MOST < kinds {
        return Err(Refusal::ItemCount);
    }
    if numbers < kinds || marks < kinds || codes < kinds {
        return Err(Refusal::ListTooShort);
    }
    Ok(())
}

// Marks and codes are cleared first, many at a time, so that an operation which fits has only its number to write.
pub(crate) fn clear(count: usize, marks: &mut [u8], codes: &mut [u8])
    requires { (count ≤ length marks.old) × (count ≤ length codes.old) }
    ensures marks_new { marks.new ≡ cleared count marks.old }
    ensures codes_new { codes.new ≡ cleared count codes.old }
{
    put_zeros(marks, 0, count);
    put_zeros(codes, 0, count);
}

// A value in its place, whose mark was cleared.
fn put_value(value: Checked64, number: &mut u64, mark: &mut u8)
    ensures number_new { number.new ≡ (given value).number }
    ensures mark_new { mark.new ≡ kept (given value).mark mark.old }
{
    match value {
        Checked64::Fits(n) => {
            *number = n;
        }
        Checked64::Overflowed => {
            *number = 0;
            *mark = 1;
        }
    }
}

// An answer in its place, whose mark and code were cleared.
fn put_answer(answer: Result<Checked64, Refusal>, number: &mut u64, mark: &mut u8, code: &mut u8)
    requires { (paper answer).code < 256 }
    ensures number_new { number.new ≡ (paper answer).number }
    ensures mark_new { mark.new ≡ kept (paper answer).mark mark.old }
    ensures code_new { code.new ≡ kept (paper answer).code code.old }
{
    match answer {
        Ok(value) => put_value(value, number, mark),
        Err(refusal) => {
            *number = NO_NUMBER;
            *code = refusal.number() as u8;
        }
    }
}

// What an operation comes to, in its place of the three lists. Plain lists and records go through here.
pub(crate) fn step(operation: OperationRecord, number: &mut u64, mark: &mut u8, code: &mut u8)
    ensures number_new { number.new ≡
        (element_of operation.kind operation.left operation.right).number }
    ensures mark_new { mark.new ≡
        kept (element_of operation.kind operation.left operation.right).mark mark.old }
    ensures code_new { code.new ≡
        kept (element_of operation.kind operation.left operation.right).code code.old }
{
    put_answer(answer(operation), number, mark, code);
}

// A row of plain lists: element i of each result is that of the operation of kind i on left i and right i, refused or
// not, and what is past the last stays. On refusal all stays. The six lists are apart, as C lends them to `razovinto_row`. They
// are gone through by places: with a `zip` for each of the other five the loop is no plainer.
pub fn row(
    kinds: &[u8],
    lefts: &[u64],
    rights: &[u64],
    numbers: &mut [u64],
    marks: &mut [u8],
    codes: &mut [u8],
) -> Result<(), Refusal>
    ensures result_value { rowed result ≡
        code_for (lists kinds.now lefts.now rights.now) numbers.old
        marks.old codes.old }
    ensures numbers_new { numbers.new ≡
        numbers_after (lists kinds.now lefts.now rights.now) numbers.old
        marks.old codes.old }
    ensures marks_new { marks.new ≡
        marks_after (lists kinds.now lefts.now rights.now) numbers.old
        marks.old codes.old }
    ensures codes_new { codes.new ≡
        codes_after (lists kinds.now lefts.now rights.now) numbers.old
        marks.old codes.old }
{
    let count = kinds.len();
    begin(
        count,
        lefts.len(),
        rights.len(),
        numbers.len(),
        marks.len(),
        codes.len(),
    )?;
    clear(count, marks, codes);
    for (i, kind) in kinds.iter().enumerate() {
        let operation = OperationRecord {
            kind: *kind,
            left: lefts[i],
            right: rights[i],
        };
        step(operation, &mut numbers[i], &mut marks[i], &mut codes[i]);
    }
    Ok(())
}
