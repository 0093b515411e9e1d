use thiserror::Error;

/// A line can't be cut into tokens.
#[derive(Clone, Copy, Debug, PartialEq, Eq, Error)]
#[error("the line can't be cut into tokens")]
pub struct Uncut;

/// A token of a line, with its bytes as they stand there.
#[derive(Clone, Copy, Debug)]
pub enum Token<'a> {
    /// A directive, an account, a commodity, or what is meant as one.
    Word(&'a str),
    /// A number, with its sign, its commas and its point.
    Number(&'a str),
    /// A date, which the calendar need not have.
    Date(&'a str),
    /// The part of a text between its quotes. Each quote and each backslash in it has a backslash before it.
    Text(&'a str),
    /// A mark.
    Mark(Mark),
}

/// A token that is always spelled in one way.
#[derive(Clone, Copy, Debug, PartialEq, Eq)]
pub enum Mark {
    /// `,`
    Comma,
    /// `*`
    Star,
    /// `!`
    Exclamation,
    /// `@`
    At,
    /// `@@`
    AtAt,
    /// `{`
    Open,
    /// `{{`
    OpenOpen,
    /// `}`
    Close,
    /// `}}`
    CloseClose,
}
