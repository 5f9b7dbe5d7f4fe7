// The scan of a level, a part at a time: the ranks of a part's readings give its least and greatest, and an unusable
// reading ends the scan with the part that it is in.
ghost use Rattle.std.specs.Prelude.{◌≡◌};
ghost use Rattle.level.specs.Scan.{scan_of};
ghost use Rattle.level.specs.Answers.{scanned};

use crate::extent::settle;
use crate::faults::refuse;
use crate::ranks::ranked;
use crate::types::Extent;
use checked::refusal::{Refusal, RefusedAt};
use reading::marks::all_marked;

// Readings to a part. The parts are places of the level and no `chunks`: `ranked`, `settle` and `refuse` take the whole
// level, and promise of it up to a place.
const PART: usize = 4096;

// The least and the greatest reading of a level. The lists' lengths come first, then the earliest place with a fault. A
// level is two lists, readings and ground marks, as a host lends them.
pub fn scan(level: &[f32], grounds: &[u8]) -> Result<Extent, RefusedAt>
    ensures { scanned result ≡ scan_of level.now grounds.now }
{
    if level.len() != grounds.len() {
        return Err(Refusal::LengthsDiffer.at(0));
    }
    if level.is_empty() {
        return Err(Refusal::FieldEmpty.at(0));
    }
    if !all_marked(grounds) {
        return Err(refuse(level, grounds, 0));
    }
    let mut extent = Extent {
        least: f32::INFINITY,
        greatest: f32::NEG_INFINITY,
    };
    let mut at = 0;
    while at < level.len() {
        let end = at + (level.len() - at).min(PART);
        let ranks = ranked(level, grounds, at, end, extent);
        if ranks.least == 0 {
            return Err(refuse(level, grounds, at));
        }
        extent = Extent {
            least: settle(level, at, end, extent.least, ranks.least),
            greatest: settle(level, at, end, extent.greatest, ranks.greatest),
        };
        at = end;
    }
    Ok(extent)
}
