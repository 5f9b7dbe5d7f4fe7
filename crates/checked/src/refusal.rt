// Why a call is refused. The numbers are those of `number_of` of specs/Paper.antt.
ghost use Rattle.std.specs.Prelude.{◌≡◌};
ghost use Rattle.checked.specs.Paper.{number_of};

#[derive(Clone, Copy, Debug, PartialEq, Eq)]
pub enum Refusal {
    // divisor 0, both fit
    DivisorZero = 1,
    // base below 2, both fit
    BaseBelowTwo = 2,
    // overflowed left of a quotient or a remainder, argument of a logarithm, place of a field, or value that is asked
    // for its plain number
    Overflowed = 3,
    // signed quotient doesn't fit
    QuotientTooLarge = 4,
    // width not 8, 16, 32, 64
    UnknownWidth = 5,
    // lent lists of one recipe, row or field differ in length
    LengthsDiffer = 6,
    // recipe of 0 items or above 256, or row of 0 operations or above 4,096
    ItemCount = 7,
    // unknown kind, literal in a row, or operation with a number not 0
    UnknownKind = 8,
    // literal above M
    LiteralTooLarge = 9,
    // operation with fewer than two values on hand
    TooFewOnHand = 10,
    // literal that would be the 33rd on hand
    HandFull = 11,
    // recipe ends with more than one value
    SeveralLeft = 12,
    // recipe ends with none
    NoneLeft = 13,
    // field empty
    FieldEmpty = 14,
    // mark not 0 or 1, or overflowed with number not 0
    BadMark = 15,
    // block not 512 bytes, or run not a multiple of 512
    BlockLength = 16,
    // check wrong
    WrongCheck = 17,
    // edition, count, a byte that must be zero, a mark, or an overflowed value with a number
    BadLayout = 18,
    // lent result list shorter than what would be written
    ListTooShort = 19,
    // allowance spent
    AllowanceSpent = 20,
    // block number that would pass 2^32 - 1
    BlockNumberTooLarge = 21,
    // reading that is NaN or infinite
    UnusableReading = 22,
    // reading that isn't a whole number from 0 to 16,777,215
    NotWhole = 23,
    // sound block with another number
    OtherBlockNumber = 24,
}

// Why a call is refused, and at which place; a whole list is refused at place 0, since an entry for C tells a place with
// every refusal.
#[derive(Clone, Copy, Debug, PartialEq, Eq)]
pub struct RefusedAt {
    pub refusal: Refusal,
    pub place: u64,
}

impl Refusal {
    // The refusal at a place of what was lent.
    pub fn at(self, place: u64) -> RefusedAt
        ensures { result ≡ record { refusal = self; place = place } }
    {
        RefusedAt {
            refusal: self,
            place,
        }
    }

    // The refusal's number.
    pub fn number(self) -> u32
        ensures { result ≡ number_of self }
    {
        u32::from(self)
    }
}

impl From<Refusal> for u32 {
    ghost from_gives = { λ refusal n. n ≡ number_of refusal };

    fn from(refusal: Refusal) -> u32 {
        refusal as u32
    }
}
