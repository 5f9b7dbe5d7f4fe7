// A recipe as words of the command line.
ghost use Rattle.std.specs.Prelude.{◌≤◌};

use crate::line::{Digits, Line};
use crate::show::Shown;
use crate::status::{Status, Stop};
use crate::system::System;
use crate::text::{LONGEST_WORD, complain, word_at};
use crate::words::{NoWord, Word, kind_of, word_of};
use recipe::run::run;
use std::fmt;
use std::fmt::Display;

// A recipe has at most 256 items. One more is taken for the library to refuse, and none after it is looked at.
const TAKEN: usize = 257;

// How many words stand before a recipe's.
const BEFORE: usize = 4;

// How a complaint about the item at a place begins.
#[derive(Clone, Copy)]
struct ItemAt(usize);

impl Display for ItemAt {
    fn fmt<W: fmt::Write>(&self, f: &mut fmt::Formatter<W>) -> fmt::Result {
        let place = Digits(self.0 as u64);
        write!(f, "razo: word {place}, '")
    }
}

const TOO_LARGE: &str = "', is too large: numbers are below 2^64\n";

// The number that a word of the command line is. A complaint about the word begins with `before`.
pub(crate) fn number_at(rt: &impl System, index: usize, before: &'static str) -> Result<u64, Stop> {
    let mut space = [0u8; LONGEST_WORD];
    let said = word_at(rt, index, &mut space, before)?;
    match word_of(said) {
        Ok(Word::Number(number)) => Ok(number),
        Err(NoWord::TooLarge) => Err(complain(rt, before, said, TOO_LARGE)),
        Ok(Word::Operation(_)) | Err(NoWord::Neither) => {
            Err(complain(rt, before, said, "', is not a number\n"))
        }
    }
}

// The item at a place of the recipe: a literal or an operation.
fn item_at(rt: &impl System, place: usize) -> Result<Word, Stop>
    requires { place ≤ 257 }
{
    let mut space = [0u8; LONGEST_WORD];
    let said = word_at(rt, place + BEFORE, &mut space, ItemAt(place))?;
    match word_of(said) {
        Ok(item) => Ok(item),
        Err(NoWord::TooLarge) => Err(complain(rt, ItemAt(place), said, TOO_LARGE)),
        Err(NoWord::Neither) => Err(complain(
            rt,
            ItemAt(place),
            said,
            "', is neither a number nor an operation\n",
        )),
    }
}

pub(crate) fn run_command(rt: &impl System, words: usize) -> Result<Status, Stop> {
    if words < BEFORE {
        return Err(complain(
            rt,
            "razo: '",
            b"run",
            "' takes WIDTH, ALLOWANCE and the words of a recipe\n",
        ));
    }
    let width = number_at(rt, 2, "razo: WIDTH, '")?;
    let allowance = number_at(rt, 3, "razo: ALLOWANCE, '")?;
    let count = (words - BEFORE).min(TAKEN);
    let mut kinds = [0u8; TAKEN];
    let mut numbers = [0u64; TAKEN];
    // The lists have zeros: a literal has the kind 0, and an operation the number 0.
    for place in 0..count {
        match item_at(rt, place)? {
            Word::Number(number) => numbers[place] = number,
            Word::Operation(operation) => kinds[place] = kind_of(operation),
        }
    }
    let shown = Shown {
        run: run(width, &kinds[..count], &numbers[..count], allowance),
        kinds: &kinds[..count],
    };
    let mut lines = Line::<4096>::new();
    lines.show(shown);
    rt.write_all(lines.as_bytes())?;
    Ok(shown.status())
}
