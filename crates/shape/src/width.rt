// The widths there are.
ghost use Rattle.std.specs.Prelude.{◌≡◌};
ghost use Rattle.shape.specs.Answers.{limit_verdict, limit_for};

// The largest number of 8, 16, 32 or 64 bits; there is no other width. It takes a number: docs/ENTRIES.md names it, and any
// number gets an answer.
#[tactic(auto, unfolding(crate::specs::Answers::limit_for))]
pub fn limit_of(width: u64) -> Option<u64>
    ensures { limit_verdict result ≡ limit_for width }
{
    match width {
        8 => Some(u8::MAX as u64),
        16 => Some(u16::MAX as u64),
        32 => Some(u32::MAX as u64),
        64 => Some(u64::MAX),
        _ => None,
    }
}
