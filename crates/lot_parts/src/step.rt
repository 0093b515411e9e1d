use lot_dump::{End, Heading};

/// What comes next in a dump.
#[derive(Debug, Drop)]
pub enum Step {
    /// An entry, whose text is in the buffer.
    Entry(Heading),
    /// The end, with nothing behind it.
    End(Sum),
}

/// What the end of a dump says, beside what was found above it.
#[derive(Clone, Copy, Debug, PartialEq, Eq)]
pub struct Sum {
    /// What the last line says.
    pub end: End,
    /// The SHA-256 of all bytes above it.
    pub digest: [u8; 32],
    /// How many headings stand above it.
    pub headings: u64,
}
