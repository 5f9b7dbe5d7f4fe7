// A reading looked at.
ghost use Rattle.std.specs.Prelude.{◌≡◌};
ghost use Rattle.reading.specs.Reading.{usable, reading_of};

use crate::types::Reading;

// Whether a float is neither NaN nor infinite. By comparisons: std's `is_finite` subtracts, and of an infinity that is an
// invalid operation, which ends a host that has the processor trap those.
fn usable(x: f32) -> bool
    ensures { result ≡ usable x }
{
    f32::NEG_INFINITY < x && x < f32::INFINITY
}

// The reading with this float and this ground mark. A mark that isn't 0 counts as under the ground here; whether it is
// a mark at all is asked first.
pub fn seen(x: f32, mark: u8) -> Reading
    ensures { result ≡ reading_of x mark }
{
    if !usable(x) {
        Reading::Unusable
    } else if mark == 0 {
        Reading::Air(x)
    } else {
        Reading::Ground(x)
    }
}
