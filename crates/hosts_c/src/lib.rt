// Recipes, fields, blocks and single numbers for C: each export calls the library's function of its name and states its
// clauses again.
#![tactic(auto)]

ghost use Rattle.std.specs.Prelude.{◌≡◌, cond};
ghost use Rattle.fit.specs.Fit.{power_fits};
ghost use Rattle.signed.specs.Signed.{quotient_of, remainder_of};
ghost use Rattle.shape.specs.Shape.{shape_of};
ghost use Rattle.field.specs.Range.{scan_of};
ghost use Rattle.layout.specs.Editions.{one};
ghost use Rattle.layout.specs.Reading.{reading_of};
ghost use Rattle.block.specs.Answers.{sound_of};
ghost use Rattle.search.specs.Search.{search_of};
ghost use Rattle.written.specs.Writing.{writing_of};
ghost use Rattle.recipe.specs.Run.{run_of};
ghost use Rattle.entry.specs.Entry.{answer_code, answer_list};
ghost use Rattle.hosts.specs.Answers.{of_shape, of_run, of_scan, of_reading, numbers_beside, marks_beside, of_writing, run_beside, of_search};
ghost use Rattle.hosts.specs.Entry.{signed_code, signed_list};

#[unsafe(no_mangle)]
pub extern "C" fn razovinto_shape(
    width: u64,
    kinds: &[u8],
    numbers: &[u64],
    answer: &mut [u64],
) -> u32
    ensures value { result ≡ answer_code (of_shape (shape_of width kinds.now numbers.now)) answer.old }
    ensures answer_new { answer.new ≡
        answer_list (of_shape (shape_of width kinds.now numbers.now)) answer.old }
{
    hosts::recipes::razovinto_shape(width, kinds, numbers, answer)
}

#[unsafe(no_mangle)]
pub extern "C" fn razovinto_run(
    width: u64,
    kinds: &[u8],
    numbers: &[u64],
    allowance: u64,
    answer: &mut [u64],
) -> u32
    ensures value { result ≡ answer_code (of_run (run_of width kinds.now numbers.now allowance)) answer.old }
    ensures answer_new { answer.new ≡
        answer_list (of_run (run_of width kinds.now numbers.now allowance)) answer.old }
{
    hosts::recipes::razovinto_run(width, kinds, numbers, allowance, answer)
}

#[unsafe(no_mangle)]
pub extern "C" fn razovinto_scan(numbers: &[u64], marks: &[u8], answer: &mut [u64]) -> u32
    ensures value { result ≡ answer_code (of_scan (scan_of numbers.now marks.now)) answer.old }
    ensures answer_new { answer.new ≡
        answer_list (of_scan (scan_of numbers.now marks.now)) answer.old }
{
    hosts::fields::razovinto_scan(numbers, marks, answer)
}

#[unsafe(no_mangle)]
pub extern "C" fn razovinto_sound(block: &[u8]) -> u32
    ensures { result ≡ (sound_of block.now).code }
{
    hosts::blocks::razovinto_sound(block)
}

#[unsafe(no_mangle)]
pub extern "C" fn razovinto_read(
    block: &[u8],
    numbers: &mut [u64],
    marks: &mut [u8],
    answer: &mut [u64],
) -> u32
    ensures value { result ≡
        answer_code (of_reading (reading_of block.now numbers.old marks.old))
        answer.old }
    ensures answer_new { answer.new ≡
        answer_list (of_reading (reading_of block.now numbers.old marks.old))
        answer.old }
    ensures numbers_new { numbers.new ≡
        numbers_beside block.now numbers.old marks.old answer.old }
    ensures marks_new { marks.new ≡
        marks_beside block.now numbers.old marks.old answer.old }
{
    hosts::blocks::razovinto_read(block, numbers, marks, answer)
}

#[unsafe(no_mangle)]
pub extern "C" fn razovinto_write(
    first: u32,
    numbers: &[u64],
    marks: &[u8],
    run: &mut [u8],
    answer: &mut [u64],
) -> u32
    ensures value { result ≡
        answer_code (of_writing (writing_of one first numbers.now marks.now run.old))
        answer.old }
    ensures answer_new { answer.new ≡
        answer_list (of_writing (writing_of one first numbers.now marks.now run.old))
        answer.old }
    ensures run_new { run.new ≡
        run_beside first numbers.now marks.now run.old answer.old }
{
    hosts::blocks::razovinto_write(first, numbers, marks, run, answer)
}

#[unsafe(no_mangle)]
pub extern "C" fn razovinto_search(run: &[u8], answer: &mut [u64]) -> u32
    ensures value { result ≡ answer_code (of_search (search_of run.now)) answer.old }
    ensures answer_new { answer.new ≡ answer_list (of_search (search_of run.now)) answer.old }
{
    hosts::blocks::razovinto_search(run, answer)
}

#[unsafe(no_mangle)]
pub extern "C" fn razovinto_power_fits(base: u64, exponent: u64) -> u32
    ensures { result ≡ cond (power_fits base exponent) 1 0 }
{
    hosts::numbers::razovinto_power_fits(base, exponent)
}

#[unsafe(no_mangle)]
pub extern "C" fn razovinto_signed_quotient(left: i64, right: i64, res: &mut [i64]) -> u32
    ensures value { result ≡ signed_code (quotient_of 64 left right) res.old }
    ensures res_new { res.new ≡ signed_list (quotient_of 64 left right) res.old }
{
    hosts::numbers::razovinto_signed_quotient(left, right, res)
}

#[unsafe(no_mangle)]
pub extern "C" fn razovinto_signed_remainder(left: i64, right: i64, res: &mut [i64]) -> u32
    ensures value { result ≡ signed_code (remainder_of left right) res.old }
    ensures res_new { res.new ≡ signed_list (remainder_of left right) res.old }
{
    hosts::numbers::razovinto_signed_remainder(left, right, res)
}
