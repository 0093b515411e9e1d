use lot_command::{Command, Key};

/// A command of a dump, with what the line above it says: the number of its entry in the book that was dumped, from 1, and its
/// key. In a text that was edited a number may come twice: a command that is put in bears that of the one before it.
#[derive(Drop)]
pub struct Dumped {
    pub number: u32,
    pub key: Key,
    pub command: Command,
}
