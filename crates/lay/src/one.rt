// A block of edition 1, from its first byte to its last; the check comes when all the others are laid.
ghost use Rattle.std.specs.Prelude.{◌≡◌, ◌≤◌};
ghost use Rattle.little.specs.Bytes.{put};
ghost use Rattle.layout.specs.Editions.{marks_at, one};
ghost use Rattle.written.specs.Block.{laid_over};
ghost use Rattle.lay.specs.Ending.{with_zeros, with_check};

use checksum::sum::check_sum;
use layout::{BLOCK_LENGTH, CHECK_AT, HEAD_AT, MARKS_AT, one};
use store::bytes::{put_bytes, put_longs, put_word, put_zeros};

// The marks, zeros up to the block's end, and then the check, which counts all that stands before it. The sum for it
// goes over the check's own bytes too and takes them off again: they are laid first, so that nothing of what the list
// held before is looked at.
fn finish(count: usize, marks: &[u8], block: &mut [u8])
    requires { count ≤ one.most }
    ensures { block.new ≡ with_check (with_zeros count (put marks_at marks.now block.old)) }
{
    put_bytes(block, MARKS_AT, marks);
    put_zeros(block, MARKS_AT + count, BLOCK_LENGTH - MARKS_AT - count);
    let check = check_sum(block);
    put_word(block, CHECK_AT, check);
}

// The block with this number and these values. A list that is no block stays, and so does a block for which the values
// are too many, or numbers and marks not as many. The values are two lists, as a host lends them.
pub fn lay(number: u32, numbers: &[u64], marks: &[u8], block: &mut [u8])
    ensures { block.new ≡ laid_over one number numbers.now marks.now block.old }
{
    let count = numbers.len();
    if block.len() != BLOCK_LENGTH || one::MOST < count || marks.len() != count {
        return;
    }
    put_word(block, 0, number);
    block[4] = count as u8;
    block[5] = one::TAG;
    put_zeros(block, HEAD_AT, one::FIRST - HEAD_AT);
    put_longs(block, one::FIRST, numbers);
    put_zeros(block, one::FIRST + 8 * count, 8 * (one::MOST - count));
    finish(count, marks, block);
}
