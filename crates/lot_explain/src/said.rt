//! What the program said of its input: a refusal of a command, or a fault.

use std::str;

/// A line that says that something wasn't done.
#[derive(Clone, Copy)]
pub(crate) struct Said<'a> {
    /// The number of the command, row or line that it is said of, from 1; none where it is said of
    /// the whole input, or of the book.
    pub(crate) number: Option<usize>,
    pub(crate) code: &'a str,
    /// The place of the posting that it names in its transaction, from 1.
    pub(crate) posting: Option<usize>,
    /// What else follows the code and its name: a currency, or the cause of a faulty row.
    pub(crate) word: &'a str,
}

/// Returns what a line says, given without its line end, or `None` where it is neither a refusal
/// nor a fault.
pub(crate) fn heard(line: &[u8]) -> Option<Said<'_>> {
    let mut words = str::from_utf8(line).ok()?.split(' ');
    let (first, second) = (words.next()?, words.next()?);
    let (number, code) = match (first, second) {
        ("fault", "line" | "row") => (words.next()?, words.next()?),
        ("fault", "header") => ("", words.next()?),
        ("fault", code) => ("", code),
        (number, "refused" | "fault") => (number, words.next()?),
        _ => return None,
    };
    let _name = words.next();
    let word = words.next().unwrap_or("");
    Some(Said {
        number: number.parse().ok(),
        code,
        posting: match words.next() {
            Some(place) => place.parse().ok(),
            None => None,
        },
        word,
    })
}
