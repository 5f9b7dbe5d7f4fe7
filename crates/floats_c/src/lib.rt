// Levels of raw floats for C: each export calls the library's function of its name and states its clauses again.
#![tactic(auto)]

ghost use Rattle.std.specs.Prelude.{◌≡◌};
ghost use Rattle.level.specs.Scan.{scan_of};
ghost use Rattle.turn.specs.Turning.{turning_of};
ghost use Rattle.entry.specs.Entry.{answer_code, answer_list};
ghost use Rattle.floats.specs.Levels.{bits_in, of_level_scan, scan_for, extent_beside, of_turning, turned_beside, unmarked_beside};

#[unsafe(no_mangle)]
pub extern "C" fn razovinto_level_scan(
    level: &[f32],
    grounds: &[u8],
    extent: &mut [f32],
    answer: &mut [u64],
) -> u32
    ensures value { result ≡
        answer_code (of_level_scan (scan_for extent.old (scan_of level.now grounds.now)))
        answer.old }
    ensures answer_new { answer.new ≡
        answer_list (of_level_scan (scan_for extent.old (scan_of level.now grounds.now)))
        answer.old }
    ensures extent_new { bits_in extent.new ≡
        extent_beside level.now grounds.now extent.old answer.old }
{
    floats::levels::razovinto_level_scan(level, grounds, extent, answer)
}

#[unsafe(no_mangle)]
pub extern "C" fn razovinto_level_to_field(
    level: &[f32],
    grounds: &[u8],
    numbers: &mut [u64],
    marks: &mut [u8],
    answer: &mut [u64],
) -> u32
    ensures value { result ≡
        answer_code
        (of_turning
        (turning_of level.now grounds.now numbers.old marks.old))
        answer.old }
    ensures answer_new { answer.new ≡
        answer_list
        (of_turning
        (turning_of level.now grounds.now numbers.old marks.old))
        answer.old }
    ensures numbers_new { numbers.new ≡
        turned_beside level.now grounds.now numbers.old marks.old
        answer.old }
    ensures marks_new { marks.new ≡
        unmarked_beside level.now grounds.now numbers.old marks.old
        answer.old }
{
    floats::levels::razovinto_level_to_field(level, grounds, numbers, marks, answer)
}
