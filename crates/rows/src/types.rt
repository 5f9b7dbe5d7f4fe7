// An operation of a row, and what a row answers.
ghost use Rattle.std.specs.Prelude.{◌≡◌};
ghost use Rattle.rows.specs.Answers.{rowed};

use checked::refusal::Refusal;

// An operation as the host keeps it: its kind, from 1 to 6, and its two numbers. A host in C has the same struct.
#[repr(C)]
#[derive(Clone, Copy, Debug, PartialEq, Eq)]
pub struct OperationRecord {
    pub kind: u8,
    pub left: u64,
    pub right: u64,
}

// What a row's answer is to a host in C: 0 where the elements stand in the lent lists, or the refusal's number.
pub fn code(answer: Result<(), Refusal>) -> u32
    ensures { result ≡ rowed answer }
{
    match answer {
        Ok(()) => 0,
        Err(refusal) => refusal.number(),
    }
}
