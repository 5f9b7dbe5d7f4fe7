// A word or a number from a place of a lent line on. Each gives the place after what it put; where there is no room it puts
// nothing, and the place stays. docs/ENTRIES.md promises this place, so it is no `Option`.
ghost use Rattle.std.specs.Prelude.{◌≡◌};
ghost use Rattle.lines.specs.Line.{decimal, after, written};

pub fn word(line: &mut [u8], at: usize, text: &[u8]) -> usize
    ensures value { result ≡ after at text.now line.old }
    ensures line_new { line.new ≡ written at text.now line.old }
{
    if line.len() < at || line.len() - at < text.len() {
        return at;
    }
    let end = at + text.len();
    line[at..end].copy_from_slice(text);
    end
}

// A number's decimal digits.
pub fn number(line: &mut [u8], at: usize, n: u64) -> usize
    ensures value { result ≡ after at (decimal n) line.old }
    ensures line_new { line.new ≡ written at (decimal n) line.old }
{
    let mut digits = [0u8; 20];
    let count = io::decimal(n, &mut digits);
    word(line, at, &digits[..count])
}
