// Numbers, bytes and zeros stored in a lent list of bytes from a place on. A list without room for them stays, so that
// no function asks anything of its caller. Where a number's bytes stand side by side, a compiler makes one store of
// them. docs/ENTRIES.md names the five functions, each with its list and its place, so the two are no cursor.
ghost use Rattle.std.specs.Prelude.{◌≡◌, replicate};
ghost use Rattle.little.specs.Bytes.{bytes_of, longs, put};

// A number of four bytes. docs/ENTRIES.md names this function and the next, and std has no trait over `to_le_bytes`.
pub fn put_word(b: &mut [u8], at: usize, number: u32)
    ensures { b.new ≡ put at (bytes_of 4 number) b.old }
{
    let word = number.to_le_bytes();
    put_bytes(b, at, &word);
}

// A number of eight bytes.
pub fn put_long(b: &mut [u8], at: usize, number: u64)
    ensures { b.new ≡ put at (bytes_of 8 number) b.old }
{
    let long = number.to_le_bytes();
    put_bytes(b, at, &long);
}

// Numbers of eight bytes each, one after the other. Their places are counted: of `chunks_exact_mut` and
// `as_chunks_mut` std doesn't say what the slice holds afterwards.
pub fn put_longs(b: &mut [u8], at: usize, numbers: &[u64])
    ensures { b.new ≡ put at (longs numbers.now) b.old }
{
    if b.len() < at || (b.len() - at) / 8 < numbers.len() {
        return;
    }
    for (i, number) in numbers.iter().enumerate() {
        let from = at + 8 * i;
        b[from..from + 8].copy_from_slice(&number.to_le_bytes());
    }
}

// Bytes as they are, one by one: of std's `copy_from_slice` a compiler makes a call of `memmove`, and the library for hosts
// needs nothing from outside but `memset`.
pub fn put_bytes(b: &mut [u8], at: usize, bytes: &[u8])
    ensures { b.new ≡ put at bytes.now b.old }
{
    let count = bytes.len();
    if b.len() < at || b.len() - at < count {
        return;
    }
    for i in 0..count {
        b[at + i] = bytes[i];
    }
}

// So many zeros, byte by byte: of this a compiler makes one call, where std's `fill` stores the last byte apart.
// `fill` was tried: 2 or 9 zeros took 6.8 ns in place of 3.5, and the writer's block of one value 74 in place of 66.
pub fn put_zeros(b: &mut [u8], at: usize, count: usize)
    ensures { b.new ≡ put at (replicate count 0) b.old }
{
    if b.len() < at || b.len() - at < count {
        return;
    }
    for i in 0..count {
        b[at + i] = 0;
    }
}
