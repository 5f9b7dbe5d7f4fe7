// Numbers of four and eight bytes, from a place of the block on. They are taken byte by byte: of a part of a list
// std gives an `Option` or a `Result`, which would need an answer for none.
ghost use Rattle.std.specs.Prelude.{◌≡◌, ◌+◌, ◌≤◌, length};
ghost use Rattle.little.specs.Bytes.{part, little};

use little::bytes::{long, word};

pub(crate) fn word_at(b: &[u8], at: usize) -> u32
    requires { at + 4 ≤ length b.now }
    ensures { result ≡ little (part at 4 b.now) }
{
    word(b[at], b[at + 1], b[at + 2], b[at + 3])
}

pub(crate) fn long_at(b: &[u8], at: usize) -> u64
    requires { at + 8 ≤ length b.now }
    ensures { result ≡ little (part at 8 b.now) }
{
    long(
        b[at],
        b[at + 1],
        b[at + 2],
        b[at + 3],
        b[at + 4],
        b[at + 5],
        b[at + 6],
        b[at + 7],
    )
}
