// Numbers stored in a lent list.
ghost use Rattle.std.specs.Prelude.{◌≡◌, ◌+◌, ◌≤◌, length};
ghost use Rattle.std.proofs.lemmas.List.Edits.{sets};

// From a place on, one by one: of std's `copy_from_slice` a compiler makes a call of `memcpy` for the hand's 32 numbers, and
// the library for hosts needs nothing from outside but `memset`.
pub(crate) fn put_at<const N: usize>(answer: &mut [u64], at: usize, numbers: &[u64; N])
    requires { at + N ≤ length answer.old }
    ensures { answer.new ≡ sets answer.old at numbers.now }
{
    for i in 0..N {
        answer[at + i] = numbers[i];
    }
}

// In the first places. An entry matches its answer itself, and puts numbers in both cases: a function that is given a
// `Result` of them would want a closure in each entry to make them.
pub(crate) fn put<const N: usize>(answer: &mut [u64], numbers: [u64; N])
    requires { N ≤ length answer.old }
    ensures { answer.new ≡ sets answer.old 0 numbers.entry }
{
    put_at(answer, 0, &numbers);
}
