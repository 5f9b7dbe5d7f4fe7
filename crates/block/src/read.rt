// The block reader: the values of a sound block go into two lent lists, and nothing is written where the answer is a
// refusal.
ghost use Rattle.std.specs.Prelude.{◌≡◌};
ghost use Rattle.layout.specs.Sound.{fault_of};
ghost use Rattle.layout.specs.Reading.{reading_of, numbers_after, marks_after};
ghost use Rattle.block.specs.Answers.{reading};

use crate::bytes::word_at;
use crate::copy::{copy_marks, copy_numbers};
use crate::sound::sound;
use crate::types::Head;
use checked::refusal::Refusal;
use layout::one;

// Room is looked at in both lists before either is written.
fn values(block: &[u8], numbers: &mut [u64], marks: &mut [u8]) -> Result<Head, Refusal>
    requires { fault_of block.now ≡ 0 }
    ensures result_value { reading result ≡ reading_of block.now numbers.old marks.old }
    ensures numbers_new { numbers.new ≡ numbers_after block.now numbers.old marks.old }
    ensures marks_new { marks.new ≡ marks_after block.now numbers.old marks.old }
{
    let count = block[4] as usize;
    if numbers.len() < count || marks.len() < count {
        return Err(Refusal::ListTooShort);
    }
    copy_numbers(block, one::FIRST, count, numbers);
    copy_marks(block, count, marks);
    Ok(Head {
        number: word_at(block, 0),
        count,
    })
}

// The block's number and count, with its values written; or 16, 17, 18 or 19. The values go into two lists, numbers
// and marks, as a host lends them.
pub fn read(block: &[u8], numbers: &mut [u64], marks: &mut [u8]) -> Result<Head, Refusal>
    ensures result_value { reading result ≡ reading_of block.now numbers.old marks.old }
    ensures numbers_new { numbers.new ≡ numbers_after block.now numbers.old marks.old }
    ensures marks_new { marks.new ≡ marks_after block.now numbers.old marks.old }
{
    sound(block)?;
    values(block, numbers, marks)
}
