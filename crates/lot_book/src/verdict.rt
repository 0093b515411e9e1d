use crate::refusal::Refusal;

/// How a command was judged.
#[derive(Debug, PartialEq, Eq, Drop)]
pub enum Verdict {
    /// It became an entry of the book.
    Accepted,
    /// An entry with its key and its text is there already. The book is unchanged.
    Repeated,
    /// The rules refuse it. The book is unchanged.
    Refused(Refusal),
}
