// What a case says: its bytes, which are read from the front.
use crate::types::Fault;
use little::bytes;

// The bytes that are still to be read.
#[derive(Drop)]
pub struct Case<'a> {
    rest: &'a [u8],
}

impl<'a> Case<'a> {
    pub(crate) fn new(bytes: &'a [u8]) -> Self {
        Case { rest: bytes }
    }

    // How many bytes are still to be read.
    pub(crate) fn left(&self) -> usize {
        self.rest.len()
    }

    // The next bytes.
    pub(crate) fn take(&mut self, count: usize) -> Result<&'a [u8], Fault> {
        match self.rest.split_at_checked(count) {
            Some((bytes, rest)) => {
                self.rest = rest;
                Ok(bytes)
            }
            None => Err(Fault::CutShort),
        }
    }

    fn array<const N: usize>(&mut self) -> Result<[u8; N], Fault> {
        match self.rest.split_first_chunk::<N>() {
            Some((bytes, rest)) => {
                self.rest = rest;
                Ok(*bytes)
            }
            None => Err(Fault::CutShort),
        }
    }

    // A number of one byte.
    pub(crate) fn byte(&mut self) -> Result<u8, Fault> {
        let [byte] = self.array::<1>()?;
        Ok(byte)
    }

    // A count, of two bytes.
    pub(crate) fn count(&mut self) -> Result<usize, Fault> {
        let [a, b] = self.array::<2>()?;
        Ok(usize::from(bytes::half(a, b)))
    }

    // Of four bytes.
    pub(crate) fn word(&mut self) -> Result<u32, Fault> {
        Ok(word_of(self.array()?))
    }

    // Of eight bytes.
    pub(crate) fn long(&mut self) -> Result<u64, Fault> {
        Ok(long_of(self.array()?))
    }

    // As many numbers of eight bytes as the lent list takes.
    pub(crate) fn longs(&mut self, numbers: &mut [u64]) -> Result<(), Fault> {
        let bytes = self.take(numbers.len().saturating_mul(8))?;
        let (longs, _) = bytes.as_chunks::<8>();
        for (number, long) in numbers.iter_mut().zip(longs) {
            *number = long_of(*long);
        }
        Ok(())
    }

    // As many floats of four bytes as the lent list takes.
    pub(crate) fn floats(&mut self, level: &mut [f32]) -> Result<(), Fault> {
        let bytes = self.take(level.len().saturating_mul(4))?;
        let (words, _) = bytes.as_chunks::<4>();
        for (reading, word) in level.iter_mut().zip(words) {
            *reading = float_of(word_of(*word));
        }
        Ok(())
    }
}

// The numbers of four and of eight bytes, by the functions that the block reader stands on.
fn word_of([a, b, c, d]: [u8; 4]) -> u32 {
    bytes::word(a, b, c, d)
}

fn long_of([a, b, c, d, e, f, g, h]: [u8; 8]) -> u64 {
    bytes::long(a, b, c, d, e, f, g, h)
}

// The float with these bits. All NaNs are one: which it was is no matter for any answer. razo has the same function: one use
// in each, too little for a crate.
#[tactic(auto, using(std::proofs::lemmas::Float::not_nan_f32_bits))]
fn float_of(bits: u32) -> f32 {
    if 0x7f80_0000 < bits % 0x8000_0000 {
        return f32::NAN;
    }
    f32::from_bits(bits)
}

// A count of a case, where it is no larger than a list may be.
pub(crate) fn within(count: usize, most: usize) -> Result<usize, Fault> {
    if count <= most {
        Ok(count)
    } else {
        Err(Fault::TooLarge)
    }
}

// The first so many elements of a list that is lent.
pub(crate) fn lent<T>(list: &mut [T], count: usize) -> Result<&mut [T], Fault> {
    match list.get_mut(..count) {
        Some(first) => Ok(first),
        None => Err(Fault::TooLarge),
    }
}
