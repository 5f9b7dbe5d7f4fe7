// Writes a block's numbers and marks into the lent lists, and nothing past them. The block is a slice whose length is
// asked: `read` has its list as it was lent, and to make an array of it once more would need an answer for where that
// fails. Both go by places: of std's `copy_from_slice` a compiler makes a call of `memmove`, and the library for hosts
// needs nothing from outside but `memset`.
ghost use Rattle.std.specs.Prelude.{◌≡◌, ◌+◌, ◌*◌, ◌≤◌, length};
ghost use Rattle.places.specs.Places.{over};
ghost use Rattle.layout.specs.Editions.{block_length, marks_at};
ghost use Rattle.layout.specs.Layout.{number_from, mark};

use crate::bytes::long_at;
use layout::MARKS_AT;

// The numbers begin at place `first`. They go by places, since a number is known from its place in the block.
pub(crate) fn copy_numbers(b: &[u8], first: usize, count: usize, numbers: &mut [u64])
    requires { (length b.now ≡ block_length) × (first + 8 * count ≤ marks_at) × (count ≤ length numbers.old) }
    ensures { numbers.new ≡ over (number_from first b.now) count numbers.old }
{
    for i in 0..count {
        numbers[i] = long_at(b, first + 8 * i);
    }
}

pub(crate) fn copy_marks(b: &[u8], count: usize, marks: &mut [u8])
    requires { (length b.now ≡ block_length) × (marks_at + count ≤ block_length) × (count ≤ length marks.old) }
    ensures { marks.new ≡ over (mark b.now) count marks.old }
{
    for i in 0..count {
        marks[i] = b[MARKS_AT + i];
    }
}
