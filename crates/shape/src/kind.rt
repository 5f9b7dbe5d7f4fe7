// The kinds of items. `kind_of` of specs/Items.antt gives each code its kind.
ghost use Rattle.shape.specs.Kinds.{Decodes};

use checked::refusal::Refusal;

// What an operation does with the two values on top of the hand.
#[derive(Clone, Copy, Debug, PartialEq, Eq)]
pub enum Operation {
    Sum,
    Product,
    Quotient,
    Remainder,
    Power,
    Logarithm,
}

// What an item is. A literal is no operation that is missing, so that this is no `Option`.
#[derive(Clone, Copy, Debug, PartialEq, Eq)]
pub enum Kind {
    Literal,
    Operation(Operation),
}

impl TryFrom<u8> for Kind {
    type Error = Refusal;

    ghost try_from_gives = { Decodes };

    #[tactic(auto, using(crate::proofs::Codes::kind_unknown), unfolding(crate::specs::Items::kind_of))]
    fn try_from(code: u8) -> Result<Self, Refusal> {
        match code {
            0 => Ok(Kind::Literal),
            1 => Ok(Kind::Operation(Operation::Sum)),
            2 => Ok(Kind::Operation(Operation::Product)),
            3 => Ok(Kind::Operation(Operation::Quotient)),
            4 => Ok(Kind::Operation(Operation::Remainder)),
            5 => Ok(Kind::Operation(Operation::Power)),
            6 => Ok(Kind::Operation(Operation::Logarithm)),
            _ => Err(Refusal::UnknownKind),
        }
    }
}
