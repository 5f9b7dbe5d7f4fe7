// Readings as ranks: whole numbers in the order of the readings, which a compiler compares several at a time.
ghost use Rattle.std.specs.Prelude.{◌≡◌, false, ◌≤◌, length};
ghost use Rattle.std.specs.Float.Ieee.{is_nan};
ghost use Rattle.reading.specs.Order.{bits_of, rank};
ghost use Rattle.level.specs.Extent.{lowest, highest};
ghost use Rattle.level.specs.Ranks.{RankedTo};

use crate::types::Extent;
use reading::seen::seen;
use reading::types::Reading;

// The ranks of the least and the greatest reading: no `Extent`, which has readings. Where a reading isn't usable the
// least is 0, which is no usable reading's rank: a number and no `Option`, so that the loop compares whole numbers and
// has no early exit.
#[derive(Clone, Copy)]
pub(crate) struct Ranks {
    pub least: u32,
    pub greatest: u32,
}

pub(crate) fn rank(x: f32) -> u32
    requires { is_nan x ≡ false }
    ensures { result ≡ rank x }
{
    let bits = x.to_bits();
    if 0x8000_0000 <= bits {
        (0xffff_ffff - bits) + 1
    } else {
        0x8000_0000 + bits
    }
}

// The extent's ranks with those of the readings from place `from` to before place `to`. There is no early exit.
// It goes by places, since what it promises is said of places of the whole level.
pub(crate) fn ranked(level: &[f32], grounds: &[u8], from: usize, to: usize, extent: Extent) -> Ranks
    requires to_in_bounds { to ≤ length level.now }
    requires to_in_bounds_2 { to ≤ length grounds.now }
    requires from_le_to { from ≤ to }
    requires least_value { bits_of extent.least ≡ lowest level.now from }
    requires greatest_value { bits_of extent.greatest ≡ highest level.now from }
    requires least_value_2 { is_nan extent.least ≡ false }
    requires greatest_value_2 { is_nan extent.greatest ≡ false }
    ensures { RankedTo level.now from to result.least result.greatest }
{
    let mut least = rank(extent.least);
    let mut greatest = rank(extent.greatest);
    for i in from..to {
        let rank = match seen(level[i], grounds[i]) {
            Reading::Air(x) | Reading::Ground(x) => rank(x),
            Reading::Unusable => 0,
        };
        least = least.min(rank);
        greatest = greatest.max(rank);
    }
    Ranks { least, greatest }
}
