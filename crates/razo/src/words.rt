// The reading of words: numbers and the names of operations.
use shape::kind::Operation;

// The operation that a word names.
fn operation_named(said: &[u8]) -> Option<Operation> {
    match said {
        b"sum" => Some(Operation::Sum),
        b"product" => Some(Operation::Product),
        b"quotient" => Some(Operation::Quotient),
        b"remainder" => Some(Operation::Remainder),
        b"power" => Some(Operation::Power),
        b"logarithm" => Some(Operation::Logarithm),
        _ => None,
    }
}

// The kind that a recipe has for an operation: the way back of `TryFrom<u8>` in `shape::kind`.
pub(crate) fn kind_of(operation: Operation) -> u8 {
    match operation {
        Operation::Sum => 1,
        Operation::Product => 2,
        Operation::Quotient => 3,
        Operation::Remainder => 4,
        Operation::Power => 5,
        Operation::Logarithm => 6,
    }
}

// What a word says.
#[derive(Clone, Copy, Debug, PartialEq, Eq)]
pub(crate) enum Word {
    Number(u64),
    Operation(Operation),
}

// Why a word says nothing.
#[derive(Clone, Copy, Debug, PartialEq, Eq)]
pub(crate) enum NoWord {
    // digits of a number that isn't below 2^64
    TooLarge,
    Neither,
}

fn is_decimal(said: &[u8]) -> bool {
    !said.is_empty() && said.iter().all(|byte| byte.is_ascii_digit())
}

// The number that decimal digits stand for, if it is below 2^64. `parse` wants a
// text, for which each byte would be looked at once more.
fn value_of(digits: &[u8]) -> Option<u64> {
    digits.iter().try_fold(0u64, |number, byte| {
        let digit = u64::from(byte.saturating_sub(b'0'));
        number.checked_mul(10)?.checked_add(digit)
    })
}

// Digits are looked for first: they are soon told, and a file has many numbers.
pub(crate) fn word_of(said: &[u8]) -> Result<Word, NoWord> {
    if !is_decimal(said) {
        let operation = operation_named(said).ok_or(NoWord::Neither)?;
        return Ok(Word::Operation(operation));
    }
    let number = value_of(said).ok_or(NoWord::TooLarge)?;
    Ok(Word::Number(number))
}
