// What a run is at between two steps.
use checked::types::Checked64;

// A power at work: first * second ^ exponent is what was asked.
#[derive(Clone, Copy, Debug, PartialEq, Eq)]
pub struct Power {
    pub first: Checked64,
    pub second: Checked64,
    pub exponent: u64,
}

// A logarithm at work: count divisions by base have brought its argument down to left.
#[derive(Clone, Copy, Debug, PartialEq, Eq)]
pub struct Logarithm {
    pub base: u64,
    pub left: u64,
    pub count: u64,
}

// Between items, or within a power or a logarithm with its numbers.
#[derive(Clone, Copy, Debug, PartialEq, Eq)]
pub enum Phase {
    Between,
    InPower(Power),
    InLogarithm(Logarithm),
}
