// The hand: 32 places from the bottom up, each a number and a mark, as a stopped run shows them. An array of checked
// numbers would be nearly twice as long to clear, and would be taken apart again for `Run`.
ghost use Rattle.std.specs.Prelude.{◌≡◌, List, [], ◌∷◌, ◌≤◌, ◌<◌, get_or, set, length};
ghost use Rattle.recipe.specs.Run.{mark_of, number_in, places};
ghost use Rattle.recipe.specs.Machine.{value_of};

use checked::types::Checked64;
use std::marker::Model;

// The values on hand, of which there are at most 32. A place above them is fitting 0.
#[derive(Drop)]
pub(crate) struct Hand {
    numbers: [u64; 32],
    marks: [u8; 32],
    held: usize,
}

// The values, the top first.
impl Model for Hand {
    ghost use Rattle.std.specs.Prelude.{List};
    ghost use Rattle.checked.specs.Value as checked;
    ghost use Rattle.recipe.specs.Machine.{hand_of, Shows};

    ghost Value = { List checked.Value };

    ghost view = { λ h. hand_of h.held h.numbers h.marks };

    ghost invariant = { λ h. Shows h.held h.numbers h.marks };
}

impl Hand {
    pub(crate) fn new() -> Self
        ensures { result ≡ [] }
    {
        Hand {
            numbers: [0; 32],
            marks: [0; 32],
            held: 0,
        }
    }

    // Puts a value on top.
    pub(crate) fn push(&mut self, value: Checked64)
        requires { length self.old < 32 }
        ensures { self.new ≡ value ∷ self.old }
    {
        let at = self.held;
        put(&mut self.numbers, &mut self.marks, at, value);
        self.held = at + 1;
    }

    // Takes the top.
    pub(crate) fn pop(&mut self) -> Checked64
        requires { 0 < length self.old }
        ensures value { self.old ≡ result ∷ self.new }
        ensures room { length self.new < 32 }
    {
        self.held -= 1;
        take(&mut self.numbers, &mut self.marks, self.held)
    }

    // Takes the top two, the left one from under the right.
    pub(crate) fn operands(&mut self) -> (Checked64, Checked64)
        requires { 2 ≤ length self.old }
        ensures value { self.old ≡ result.1 ∷ result.0 ∷ self.new }
        ensures room { length self.new < 32 }
    {
        let held = self.held;
        let right = take(&mut self.numbers, &mut self.marks, held - 1);
        let left = take(&mut self.numbers, &mut self.marks, held - 2);
        self.held = held - 2;
        (left, right)
    }

    // The places' numbers and marks. The hand is given up for them, so that nothing is copied.
    pub(crate) fn into_places(self) -> ([u64; 32], [u8; 32])
        ensures numbers { result.0 ≡ places number_in self }
        ensures marks { result.1 ≡ places mark_of self }
    {
        let numbers = self.numbers;
        let marks = self.marks;
        (numbers, marks)
    }
}

// A place's number and mark as a checked value.
fn value_of(number: u64, mark: u8) -> Checked64
    ensures { result ≡ value_of number mark }
{
    if mark == 0 {
        return Checked64::Fits(number);
    }
    Checked64::Overflowed
}

// Puts a value on a place.
fn put(numbers: &mut [u64; 32], marks: &mut [u8; 32], at: usize, value: Checked64)
    requires { (at < 32) × (length numbers.old ≡ 32) × (length marks.old ≡ 32) }
    ensures { (numbers.new ≡ set numbers.old at (number_in value)) × (marks.new ≡ set marks.old at (mark_of value)) }
{
    match value {
        Checked64::Fits(n) => {
            numbers[at] = n;
            marks[at] = 0;
        }
        Checked64::Overflowed => {
            numbers[at] = 0;
            marks[at] = 1;
        }
    }
}

// Takes a value from its place, which is fitting 0 afterwards.
fn take(numbers: &mut [u64; 32], marks: &mut [u8; 32], at: usize) -> Checked64
    requires { (at < 32) × (length numbers.old ≡ 32) × (length marks.old ≡ 32) }
    ensures value { result ≡ value_of (get_or numbers.old at 0) (get_or marks.old at 0) }
    ensures places_new { (numbers.new ≡ set numbers.old at 0) × (marks.new ≡ set marks.old at 0) }
{
    let number = numbers[at];
    let mark = marks[at];
    numbers[at] = 0;
    marks[at] = 0;
    value_of(number, mark)
}
