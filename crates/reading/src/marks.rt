// A level's ground marks by themselves.
ghost use Rattle.std.specs.Prelude.{◌≡◌, length};
ghost use Rattle.places.specs.Places.{every};
ghost use Rattle.reading.specs.Reading.{marked_at};

// Whether each mark is 0 or 1. There is no early exit, so that a compiler looks at several at a time.
pub fn all_marked(grounds: &[u8]) -> bool
    ensures { result ≡ every (marked_at grounds.now) (length grounds.now) }
{
    let mut most: u8 = 0;
    for mark in grounds {
        most = most.max(*mark);
    }
    most <= 1
}
