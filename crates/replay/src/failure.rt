// Says on standard error that a read or a write failed.
use std::fmt::InlineText;
use std::io;
use std::io::Write;

// Longer than any text that the system has for an error.
const LONGEST_TEXT: usize = 128;

// What failed, a colon and the system's text for the error, without the error's number, which std puts after it. razo shows
// an error so too, but not as a line of its own: the two lines that cut the text are no crate of their own.
pub(crate) fn tell<E: Write>(errors: &mut E, what: &str, error: io::Error) {
    let text = InlineText::<LONGEST_TEXT>::of(error);
    let text = text.as_str();
    let reason = match text.split_once(" (os error ") {
        Some((reason, _)) => reason,
        None => text,
    };
    let _ = writeln!(errors, "{what}: {reason}");
}
