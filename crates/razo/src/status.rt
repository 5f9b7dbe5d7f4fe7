// How a command ends.
use std::fs::{Files, OpenOptions};
use std::io;
use std::io::Write;

// Of several files the worst counts, which is the greatest.
#[derive(Clone, Copy, Debug, PartialEq, Eq, PartialOrd, Ord)]
pub(crate) enum Status {
    Well,
    // An overflowed value was found, a block is bad, or a recipe's answer is no number that fits.
    Found,
    // Something was wrong with the call or a file, and a line on standard error says what.
    Wrong,
    // Whoever read standard output has closed it. No command ends so: it is said to the script alone, which ends by the
    // signal PIPE, or says why where that is ignored. The program itself gets no such signal.
    Closed,
}

// Why a command goes no further: it has ended, and said why; or standard output takes no more.
#[derive(Clone, Copy, Debug)]
pub(crate) enum Stop {
    Ended(Status),
    Output(io::Error),
}

impl From<io::Error> for Stop {
    fn from(error: io::Error) -> Self {
        Stop::Output(error)
    }
}

// The status with which a command ended, or why standard output takes no more.
pub(crate) fn ended(outcome: Result<Status, Stop>) -> io::Result<Status> {
    match outcome {
        Ok(status) | Err(Stop::Ended(status)) => Ok(status),
        Err(Stop::Output(error)) => Err(error),
    }
}

// Says the status as a digit on descriptor 3, where the script `razo` reads it. std opens no descriptor by its number, but
// the system has a name for each.
pub(crate) fn say_status(files: &impl Files, status: Status) {
    // By a match: the order of the statuses is for the worst of several, and the digits are for the script.
    let digit = match status {
        Status::Well => b'0',
        Status::Found => b'1',
        Status::Wrong => b'2',
        Status::Closed => b'3',
    };
    let mut options = OpenOptions::new();
    options.append(true);
    if let Ok(mut script) = options.open(files, "/proc/self/fd/3") {
        let _ = script.write_all(&[digit]);
    }
}
