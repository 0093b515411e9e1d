/// A table of a book.
#[derive(Clone, Copy, Debug, PartialEq, Eq)]
pub enum Table {
    Account,
    Allowed,
    Commodity,
    Price,
    Entry,
    Leg,
    Sale,
    Lot,
    Plain,
    Head,
    Opening,
    Migration,
}

/// What is looked at.
#[derive(Clone, Copy, Debug, PartialEq, Eq)]
pub enum Spot {
    /// All rows of a table, one after another.
    Table(Table),
    /// The entry of that number: its text, its key, and whether it is accepted again.
    Entry(u32),
    /// The rows of an entry in a table.
    RowsOf { table: Table, entry: u32 },
    /// The rows that the command of an entry has by itself.
    RowsOfCommand(u32),
    /// The rows of what is held, one holding after another.
    Held,
    /// Rows of a table behind those of the last entry.
    End(Table),
}

/// Receives what is looked at, before it is. Where damage is found, it is in what was received
/// last.
pub trait Watch {
    /// Receives what is looked at from now on.
    fn look(&mut self, spot: Spot);

    /// Receives that one more row of it is looked at.
    fn row(&mut self);
}

/// A receiver that does nothing.
#[derive(Drop)]
pub struct Unwatched;

impl Watch for Unwatched {
    fn look(&mut self, _spot: Spot) {}

    fn row(&mut self) {}
}
