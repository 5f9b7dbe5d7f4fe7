// A run's value and state in numbers, as C is shown them: a value is a mark and a number.
ghost use Rattle.std.specs.Prelude.{◌≡◌, length};
ghost use Rattle.little.specs.Bytes.{little};
ghost use Rattle.recipe.specs.Run.{mark_of, number_in, phase_numbers};
ghost use Rattle.hosts.specs.Answers.{phase_words, mark_words};

use checked::types::Checked64;
use steps::types::Phase;

pub(crate) fn mark_of(value: Checked64) -> u64
    ensures { result ≡ mark_of value }
{
    u64::from(value.is_overflowed())
}

pub(crate) fn number_in(value: Checked64) -> u64
    ensures { result ≡ number_in value }
{
    value.to_option().unwrap_or(0)
}

// The phase, 0 between items, 1 within a power and 2 within a logarithm; and the numbers of both, of which those of the
// phase that the run isn't in are 0.
pub(crate) fn phase_words(phase: Phase) -> [u64; 9]
    ensures { result ≡ phase_words (phase_numbers phase) }
{
    match phase {
        Phase::Between => [0; 9],
        Phase::InPower(power) => [
            1,
            mark_of(power.first),
            number_in(power.first),
            mark_of(power.second),
            number_in(power.second),
            power.exponent,
            0,
            0,
            0,
        ],
        Phase::InLogarithm(logarithm) => [
            2,
            0,
            0,
            0,
            0,
            0,
            logarithm.base,
            logarithm.left,
            logarithm.count,
        ],
    }
}

// Eight marks as one number, the first its lowest byte.
fn eight(marks: &[u8; 8]) -> u64
    ensures { result ≡ little marks.now }
{
    u64::from_le_bytes(*marks)
}

// The marks of the hand's places, bottom first. In memory they are 32 bytes.
pub(crate) fn mark_words(marks: &[u8; 32]) -> [u64; 4]
    requires { length marks.now ≡ 32 }
    ensures { result ≡ mark_words marks.now }
{
    let (eights, _) = marks.as_chunks::<8>();
    [
        eight(&eights[0]),
        eight(&eights[1]),
        eight(&eights[2]),
        eight(&eights[3]),
    ]
}
