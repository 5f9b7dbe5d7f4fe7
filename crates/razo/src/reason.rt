// Refusals in words.
use crate::line::Digits;
use checked::refusal::Refusal;
use std::fmt;

// A refusal's words.
fn phrase(refusal: Refusal) -> &'static str {
    match refusal {
        Refusal::DivisorZero => "divisor 0",
        Refusal::BaseBelowTwo => "base below 2",
        Refusal::Overflowed => "overflowed value where a number is needed",
        Refusal::QuotientTooLarge => "signed quotient that doesn't fit",
        Refusal::UnknownWidth => "width not 8, 16, 32 or 64",
        Refusal::LengthsDiffer => "lists that differ in length",
        Refusal::ItemCount => {
            "recipe of 0 items or above 256, or row of 0 operations or above 4,096"
        }
        Refusal::UnknownKind => "unknown kind, literal in a row, or operation with a number not 0",
        Refusal::LiteralTooLarge => "literal too large for the width",
        Refusal::TooFewOnHand => "operation with fewer than two values on hand",
        Refusal::HandFull => "literal that would be the 33rd on hand",
        Refusal::SeveralLeft => "recipe ends with more than one value",
        Refusal::NoneLeft => "recipe ends with no value",
        Refusal::FieldEmpty => "field without a value",
        Refusal::BadMark => "mark not 0 or 1, or overflowed with a number not 0",
        Refusal::BlockLength => "the block is not 512 bytes",
        Refusal::WrongCheck => "the check is wrong",
        Refusal::BadLayout => "the edition, the count, a mark or a byte that must be zero is wrong",
        Refusal::ListTooShort => "list too short for what would be written",
        Refusal::AllowanceSpent => "allowance spent",
        Refusal::BlockNumberTooLarge => "block number above 2^32 - 1",
        Refusal::UnusableReading => "reading is NaN or infinite",
        Refusal::NotWhole => "reading is not a whole number from 0 to 16,777,215",
        Refusal::OtherBlockNumber => "block has another number",
    }
}

// A refusal's words, and its number in parentheses.
#[derive(Clone, Copy)]
pub(crate) struct Reason(pub(crate) Refusal);

impl fmt::Display for Reason {
    fn fmt<W: fmt::Write>(&self, f: &mut fmt::Formatter<W>) -> fmt::Result {
        let words = phrase(self.0);
        let number = Digits(u64::from(self.0.number()));
        write!(f, "{words} (refusal {number})")
    }
}
