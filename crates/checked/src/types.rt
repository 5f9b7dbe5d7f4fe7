// The checked number. Two items of one spelling may not stand in one module, so the type has this one.

// A number, or the note that it was too large for its limit. It is no `Option`: nothing is missing where it doesn't fit,
// and what a sum or a product makes of it stands in methods of its own.
#[derive(Clone, Copy, Debug, PartialEq, Eq)]
pub enum Checked<N> {
    Fits(N),
    Overflowed,
}

pub type Checked64 = Checked<u64>;
