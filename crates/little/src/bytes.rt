// Numbers put together from their bytes, single bytes of a number, and whether bytes are all zero. No function asks
// anything of its caller, so that every crate shares them; where a number's bytes stand side by side, a compiler
// makes one load of them.
ghost use Rattle.std.specs.Prelude.{◌≡◌, [], ◌∷◌};
ghost use Rattle.little.specs.Bytes.{little, byte_of};
ghost use Rattle.little.specs.Zeros.{zeros};

// The numbers of two, four and eight bytes. docs/ENTRIES.md names the three, and std has no trait over `from_le_bytes`.
pub fn half(a: u8, b: u8) -> u16
    ensures { result ≡ little (a ∷ b ∷ []) }
{
    u16::from_le_bytes([a, b])
}

pub fn word(a: u8, b: u8, c: u8, d: u8) -> u32
    ensures { result ≡ little (a ∷ b ∷ c ∷ d ∷ []) }
{
    u32::from_le_bytes([a, b, c, d])
}

pub fn long(a: u8, b: u8, c: u8, d: u8, e: u8, f: u8, g: u8, h: u8) -> u64
    ensures { result ≡ little (a ∷ b ∷ c ∷ d ∷ e ∷ f ∷ g ∷ h ∷ []) }
{
    u64::from_le_bytes([a, b, c, d, e, f, g, h])
}

// Byte j of a number, from the lowest on; past the eighth every byte is 0. By a shift: of `to_le_bytes` a place past
// the eighth would need its 0 just as well. docs/ENTRIES.md names the function.
pub fn byte(number: u64, j: u64) -> u8
    ensures { result ≡ byte_of number j }
{
    if 7 < j {
        return 0;
    }
    ((number >> (8 * j)) % 256) as u8
}

// Whether the bytes from place `from` to before place `to` are zero; what is past the list's end counts as zero.
// There is no early exit: the bytes are joined by 'or', which a compiler does sixteen at a time.
// They go by places: where `from` is past `to` there is no such slice, and no byte counts.
pub fn all_zero(b: &[u8], from: usize, to: usize) -> bool
    ensures { result ≡ zeros from to b.now }
{
    let mut any: u8 = 0;
    for i in from..to.min(b.len()) {
        any |= b[i];
    }
    any == 0
}
