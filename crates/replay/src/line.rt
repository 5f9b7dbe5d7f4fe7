// Lines of numbers. What is put waits until little room is left for more, and is then written out. After a write that failed
// nothing is written.
use checked::refusal::RefusedAt;
use lines::put;
use std::io;
use std::io::Write;

// How many bytes may wait.
const MOST_WAITING: usize = 65536;

// The longest number has 20 digits, and a space stands before it.
const ROOM: usize = 21;

// The first `at` bytes of `waiting` wait to be written out. `failure` says why a write failed, if one did. std's BufWriter
// holds its bytes on the heap, and the program uses none.
#[derive(Drop)]
pub struct Output<W> {
    waiting: [u8; MOST_WAITING],
    at: usize,
    writer: W,
    failure: Option<io::Error>,
}

impl<W: Write> Output<W> {
    pub(crate) fn new(writer: W) -> Self {
        Output {
            waiting: [0; MOST_WAITING],
            at: 0,
            writer,
            failure: None,
        }
    }

    pub(crate) fn failure(&self) -> Option<io::Error> {
        self.failure
    }

    // Writes out what waits.
    pub(crate) fn flush(&mut self) {
        if self.failure.is_none() {
            let end = self.at.min(MOST_WAITING);
            let written = self.writer.write_all(&self.waiting[..end]);
            self.failure = written.err();
        }
        self.at = 0;
    }

    fn make_room(&mut self) {
        if MOST_WAITING - ROOM < self.at {
            self.flush();
        }
    }

    fn put_word(&mut self, word: &[u8]) {
        self.at = put::word(&mut self.waiting, self.at, word);
    }

    fn put_number(&mut self, n: u64) {
        self.at = put::number(&mut self.waiting, self.at, n);
    }

    // A further number, after a space.
    pub(crate) fn next(&mut self, n: u64) {
        self.make_room();
        self.put_word(b" ");
        self.put_number(n);
    }

    // Further numbers.
    pub(crate) fn further<N: Copy + Into<u64>>(&mut self, numbers: &[N]) {
        for n in numbers {
            self.next((*n).into());
        }
    }

    // A line's first numbers.
    pub(crate) fn start(&mut self, numbers: &[u64]) {
        if let Some((n, rest)) = numbers.split_first() {
            self.make_room();
            self.put_number(*n);
            self.further(rest);
        }
    }

    // An answer's first numbers: the code 0, the place 0 and what it tells; or a refusal's code and place, and zeros.
    pub(crate) fn answer<const N: usize>(&mut self, told: Result<[u64; N], RefusedAt>) {
        let (code, place, numbers) = match told {
            Ok(numbers) => (0, 0, numbers),
            Err(refused) => (u64::from(refused.refusal.number()), refused.place, [0; N]),
        };
        self.start(&[code, place]);
        self.further(&numbers);
    }

    // A line's end.
    pub(crate) fn end(&mut self) {
        self.make_room();
        self.put_word(b"\n");
    }

    // A whole line.
    pub(crate) fn whole(&mut self, numbers: &[u64]) {
        self.start(numbers);
        self.end();
    }

    // The whole line of an answer.
    pub(crate) fn whole_answer<const N: usize>(&mut self, told: Result<[u64; N], RefusedAt>) {
        self.answer(told);
        self.end();
    }

    // The line of a malformed case.
    pub(crate) fn malformed(&mut self) {
        self.make_room();
        self.put_word(b"malformed\n");
    }
}
