// How the tool is used.
use crate::status::{Status, Stop};
use crate::system::Streams;

const TEXT: &str = "\
razo search FILE..
    the first overflowed value of a file of blocks, by block position and place;
    or that there is none; or the first bad block reached, and why it is bad
razo read FILE..
    a line for each block: position, number, count, how many values overflowed,
    least, greatest and packing width ('-' in a block that is empty or has an
    overflowed value); or why the block is bad
razo write FIRST FILE
    the blocks of a file of numbers, to standard output: 55 values in each but
    the last, which has what is left, and block numbers from FIRST on
razo level VALUES [GROUND]
    the least and the greatest reading of a level, exactly and with their bits;
    or the first bad place, and why it is bad
razo run WIDTH ALLOWANCE WORD..
    a recipe at 8, 16, 32 or 64 bits: its answer and steps, or its refusal, or
    the state in which its allowance was spent
razo --help
    this text
razo --version
    the version

A FILE is read in blocks of 512 bytes; '-' is standard input. Where there are
several, each line begins with the file's name and a colon. A WORD is a number
below 2^64, or an operation on the two values before it: sum, product, quotient,
remainder, power, logarithm. Blocks, places and words are counted from 0.

The FILE of 'write' has words with white space between them: numbers below 2^64,
or 'overflowed'. At the first that is neither, nothing more is written.

VALUES has 32-bit floats, the lowest byte first, and GROUND a byte for each: 0
where it is in the air, 1 under the ground. Without GROUND all are in the air.

The exit status is
    0  where all is well
    1  where an overflowed value was found, a block is bad, or a recipe's answer
       is no number that fits
    2  where something was wrong with the call or a file, even where another
       file gives 1; standard error says what it was

    razo search blocks.dat
    razo read monday.blocks tuesday.blocks
    razo write 0 numbers.txt >numbers.blocks
    razo level temperature.f32 ground.marks
    razo run 8 100 255 1 sum 0 product
";

// Whoever asks for it is told on standard output.
pub(crate) fn help(rt: &impl Streams) -> Result<Status, Stop> {
    rt.write_all(TEXT.as_bytes())?;
    Ok(Status::Well)
}

// Whoever gives no command is told on standard error.
pub(crate) fn usage(rt: &impl Streams) -> Stop {
    let _ = rt.write_error(TEXT.as_bytes());
    Stop::Ended(Status::Wrong)
}
