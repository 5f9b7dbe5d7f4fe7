// The room for an answer.
ghost use Rattle.std.specs.Prelude.{◌≡◌};

use checked::refusal::Refusal;

// What is returned where a list is too short, whatever the answer would be.
pub fn too_short() -> u32
    ensures { result ≡ 19 }
{
    Refusal::ListTooShort.number()
}
