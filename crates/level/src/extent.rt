// From ranks back to readings.
ghost use Rattle.std.specs.Prelude.{◌≡◌, false, ◌≤◌, ◌<◌, length, get_or};
ghost use Rattle.std.specs.Float.{binary32, nan};
ghost use Rattle.std.specs.Float.Ieee.{of_bits, nan_bits};
ghost use Rattle.reading.specs.Order.{bits_of_rank};
ghost use Rattle.level.specs.Ranks.{place_of_rank, Settles, settled};

use crate::ranks::rank;

const ZEROS: u32 = 0x8000_0000;

// The one float with this rank. The two zeros share theirs; it gives the one without a sign.
fn float_of(rank: u32) -> f32
    requires rank_value { nan_bits binary32 (bits_of_rank rank) ≡ false }
    requires rank_nonzero { 0 < rank }
    ensures { result ≡ of_bits binary32 (bits_of_rank rank) }
{
    if ZEROS <= rank {
        return f32::from_bits(rank - ZEROS);
    }
    f32::from_bits((0xffff_ffff - rank) + 1)
}

// The first zero from place `from` on, its sign kept. `find` over that part would need an arm for none as well, and
// is no shorter.
fn first_zero(level: &[f32], from: usize, to: usize) -> f32
    requires to_in_bounds { to ≤ length level.now }
    requires to_bound { place_of_rank level.now from to 2147483648 < to }
    ensures { result ≡ get_or level.now (place_of_rank level.now from to 2147483648) nan }
{
    for place in from..to {
        if level[place] == 0.0 {
            return level[place];
        }
    }
    unreachable!()
}

// What is kept of the float kept so far and of the readings from place `from` to before place `to`, by the rank that was
// found for it: the float kept so far if that is its rank, and otherwise the first reading that has it.
// It takes the whole level and two places, since what is kept is promised of places of the whole level.
pub(crate) fn settle(level: &[f32], from: usize, to: usize, kept: f32, found: u32) -> f32
    requires { Settles level.now from to kept found }
    ensures { result ≡ settled level.now from to kept found }
{
    if found == rank(kept) {
        return kept;
    }
    if found == ZEROS {
        return first_zero(level, from, to);
    }
    float_of(found)
}
