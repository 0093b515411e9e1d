/// Whether a dump has to be what it says at its end.
#[derive(Clone, Copy)]
pub enum Strictness {
    /// The number of its entries and their digest have to be those that it says.
    Unchanged,
    /// It was edited on purpose, and is taken as it is.
    Edited,
}

/// What becomes of a dump one of whose commands is refused.
#[derive(Clone, Copy)]
pub enum Tolerance {
    /// No book is made of it.
    AllAccepted,
    /// A book is made of the others.
    KeepGoing,
}
