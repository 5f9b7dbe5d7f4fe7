// Replays recorded cases: reads them from standard input to its end and writes a line of numbers for each. The first malformed
// case gets the line `malformed` and ends the replay. A case's first byte says which row it is of; the comment above each row's
// `replay` says what follows, where b is a number of 1 byte, h of 2, w of 4 and q of 8.
#![tactic(auto)]

mod answers;
mod case;
mod divisions;
mod failure;
mod input;
mod levels;
mod line;
mod operations;
mod plain_numbers;
mod power_fits;
mod reads;
mod runs;
mod scans;
mod searches;
mod types;
mod values;
mod whole_rows;
mod writes;

use case::Case;
use input::Input;
use line::Output;
use std::io::{Read, Write};
use types::{Fault, MOST_ELEMENTS};

// The lists that cases are lent, which stay from case to case, and where their lines go.
#[derive(Drop)]
struct Replay<W> {
    numbers: [u64; MOST_ELEMENTS],
    marks: [u8; MOST_ELEMENTS],
    out: Output<W>,
}

impl<W: Write> Replay<W> {
    // A case, by its first byte. A row takes the case and the output, and of the lists only those that it fills.
    fn replay(&mut self, case: &mut Case<'_>) -> Result<(), Fault> {
        match case.byte()? {
            1 => runs::replay(case, &mut self.numbers, &mut self.out),
            2 => scans::replay(case, &mut self.numbers, &mut self.out),
            3 => reads::replay(case, &mut self.numbers, &mut self.marks, &mut self.out),
            4 => searches::replay(case, &mut self.out),
            5 => operations::replay(case, &mut self.out),
            6 => divisions::replay(case, &mut self.out),
            7 => power_fits::replay(case, &mut self.out),
            8 => plain_numbers::replay(case, &mut self.out),
            9 => writes::replay(case, &mut self.out),
            10 => levels::replay_scan(case, &mut self.out),
            11 => levels::replay_turn(case, &mut self.out),
            12 => whole_rows::replay(case, &mut self.out),
            _ => Err(Fault::UnknownRow),
        }
    }

    // The cases of the input, counted from 1, up to its end, to one that is malformed or to a write that failed. No input has
    // as many as the loop has turns, since a proved loop has to end.
    fn replay_all<R: Read, E: Write>(&mut self, input: &mut Input<R>, errors: &mut E) {
        for turn in 0..u64::MAX {
            input.fill(errors);
            let mut case = Case::new(input.window());
            if case.left() == 0 {
                break;
            }
            if let Err(fault) = self.replay(&mut case) {
                let number = turn + 1;
                let _ = writeln!(errors, "replay: case {number}: {fault}");
                self.out.malformed();
                break;
            }
            let left = case.left();
            input.keep_last(left);
            if self.out.failure().is_some() {
                break;
            }
        }
        self.out.flush();
        if let Some(error) = self.out.failure() {
            failure::tell(errors, "write", error);
        }
    }
}

fn main(rt: HostRuntime) {
    let mut replay = Replay {
        numbers: [0; MOST_ELEMENTS],
        marks: [0; MOST_ELEMENTS],
        out: Output::new(rt.stdout()),
    };
    replay.replay_all(&mut Input::new(rt.stdin()), &mut rt.stderr());
}
