// The packing width.
ghost use Rattle.std.specs.Prelude.{◌≡◌};
ghost use Rattle.field.specs.Range.{packing_width};

// How many bits a range takes: all of its 64 but the leading zeros. A range of 0 is zeros alone and takes none.
pub fn packing_width(range: u64) -> u64
    ensures { result ≡ packing_width range }
{
    u64::from(u64::BITS - range.leading_zeros())
}
