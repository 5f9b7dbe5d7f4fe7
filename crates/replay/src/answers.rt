// Checked values in a line.
use checked::types::Checked;
use checked::width::Width;

// The mark and the number of a value. An overflowed one has the number 0.
pub(crate) fn marked<N: Width>(value: Checked<N>) -> [u64; 2] {
    match value {
        Checked::Fits(n) => [0, n.wide()],
        Checked::Overflowed => [1, 0],
    }
}
