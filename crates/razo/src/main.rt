// razo: the tool for operators at a terminal, over the library. It looks into files of blocks and levels and runs recipes.
#![tactic(auto)]

mod exact;
mod file;
mod help;
mod level_command;
mod line;
mod read_command;
mod reason;
mod run_command;
mod search_command;
mod show;
mod status;
mod system;
mod text;
mod words;
mod write_command;

use crate::file::open;
use crate::help::{help, usage};
use crate::level_command::level_command;
use crate::line::Digits;
use crate::read_command::read_parts;
use crate::run_command::{number_at, run_command};
use crate::search_command::search_parts;
use crate::status::{Status, Stop, ended, say_status};
use crate::system::{Streams, System};
use crate::text::{LONGEST_WORD, Report, complain, word_at};
use crate::write_command::write_parts;
use std::env::{Env, FillError};
use std::io;
use std::io::ErrorKind;

#[derive(Clone, Copy, Debug, PartialEq, Eq)]
enum Command {
    Search,
    Read,
    Run,
    Write,
    Level,
    Help,
}

impl Command {
    // The command that a word names.
    fn named(said: &[u8]) -> Option<Command> {
        match said {
            b"search" => Some(Command::Search),
            b"read" => Some(Command::Read),
            b"run" => Some(Command::Run),
            b"write" => Some(Command::Write),
            b"level" => Some(Command::Level),
            b"--help" | b"-h" | b"help" => Some(Command::Help),
            _ => None,
        }
    }
}

// What is done with a file of blocks; or with one of numbers, whose first block gets this number. An enum: a
// closure would have to name the type of the input.
#[derive(Clone, Copy, Debug, PartialEq, Eq)]
enum Work {
    Search,
    Read,
    Write(u32),
}

// How the words of the command line begin in a complaint.
const WORD: &str = "razo: '";

// The file that a word of the command line names. Standard input stays open: it may be named twice, and ends at once the
// second time.
fn on_file(rt: &impl System, work: Work, index: usize, named: bool) -> Result<Status, Stop> {
    let mut space = [0u8; LONGEST_WORD];
    let name = word_at(rt, index, &mut space, WORD)?;
    let report = Report { rt, name, named };
    let mut input = match open(rt, index, name) {
        Ok(input) => input,
        Err(error) => return Err(report.fail(error)),
    };
    match work {
        Work::Search => search_parts(&report, &mut input),
        Work::Read => read_parts(&report, &mut input),
        Work::Write(number) => write_parts(&report, &mut input, number),
    }
}

// The files that the words from the third on name. One that can't be read doesn't keep the others from their turn, but
// where standard output takes no more, no further file is looked into.
fn on_files(rt: &impl System, work: Work, said: &[u8], words: usize) -> Result<Status, Stop> {
    if words < 3 {
        return Err(complain(
            rt,
            WORD,
            said,
            "' takes FILE..: names, or '-' for standard input\n",
        ));
    }
    let named = 3 < words;
    let mut worst = Status::Well;
    for index in 2..words {
        worst = worst.max(ended(on_file(rt, work, index, named))?);
    }
    Ok(worst)
}

// The file of numbers that the last word names. The word before it is the first block's number.
fn on_numbers(rt: &impl System, words: usize) -> Result<Status, Stop> {
    if words != 4 {
        return Err(complain(
            rt,
            WORD,
            b"write",
            "' takes FIRST and FILE: a block number, and a name, or '-' for standard input\n",
        ));
    }
    let number = number_at(rt, 2, "razo: FIRST, '")?;
    match u32::try_from(number) {
        Ok(number) => on_file(rt, Work::Write(number), 3, false),
        Err(_) => {
            let number = Digits(number);
            Err(complain(
                rt,
                format_args!("razo: FIRST, '{number}"),
                b"",
                "', is too large: block numbers are below 2^32\n",
            ))
        }
    }
}

// The level in a file, with the ground marks in another that the fourth word names, if there is one.
fn on_level(rt: &impl System, words: usize) -> Result<Status, Stop> {
    if words < 3 || 4 < words {
        return Err(complain(
            rt,
            WORD,
            b"level",
            "' takes VALUES and, if not all is air, GROUND: names, or '-' for standard input\n",
        ));
    }
    let mut values = [0u8; LONGEST_WORD];
    let values = word_at(rt, 2, &mut values, WORD)?;
    if words == 3 {
        return level_command(rt, values, None);
    }
    let mut ground = [0u8; LONGEST_WORD];
    let ground = word_at(rt, 3, &mut ground, WORD)?;
    level_command(rt, values, Some(ground))
}

// Does what so many words of the command line ask, the program's name among them. `rt` and the count are two arguments: most
// calls take `rt` alone, so a struct of both would soon be taken apart.
fn obey(rt: &impl System, words: usize) -> Result<Status, Stop> {
    if words < 2 {
        return Err(usage(rt));
    }
    let mut space = [0u8; LONGEST_WORD];
    let said = word_at(rt, 1, &mut space, WORD)?;
    match Command::named(said) {
        Some(Command::Search) => on_files(rt, Work::Search, said, words),
        Some(Command::Read) => on_files(rt, Work::Read, said, words),
        Some(Command::Run) => run_command(rt, words),
        Some(Command::Write) => on_numbers(rt, words),
        Some(Command::Level) => on_level(rt, words),
        Some(Command::Help) => help(rt),
        None => Err(complain(
            rt,
            WORD,
            said,
            "' is no command: 'razo --help' lists them\n",
        )),
    }
}

const ASK: &[u8] = b"--status-on-3";

// Whether the word is the one by which the script asks for the status. It comes last, so that no other word moves.
fn asks_status(rt: &impl Env, index: usize) -> bool {
    let mut said = [0u8; 32];
    match rt.arg(index, &mut said) {
        Ok(length) => &said[..length] == ASK,
        Err(_) => false,
    }
}

// How many words the command line has. For no room at all each of them is too long or empty, and the first that isn't there
// is neither.
fn count_words(rt: &impl Env) -> usize {
    for index in 0..usize::MAX {
        if let Err(FillError::NotPresent) = rt.arg(index, &mut []) {
            return index;
        }
    }
    usize::MAX
}

// Says why standard output takes no more.
fn fail_output(rt: &impl Streams, error: io::Error) {
    Report::new(rt, b"standard output").fail(error);
}

fn main(rt: HostRuntime) {
    let words = count_words(&rt);
    if 1 < words && asks_status(&rt, words - 1) {
        let status = match ended(obey(&rt, words - 1)) {
            Ok(status) => status,
            Err(error) if error.kind() == ErrorKind::BrokenPipe => Status::Closed,
            Err(error) => {
                fail_output(&rt, error);
                Status::Wrong
            }
        };
        say_status(&rt, status);
    } else if let Err(error) = ended(obey(&rt, words)) {
        fail_output(&rt, error);
    }
}
