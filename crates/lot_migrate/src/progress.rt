/// Receives how far a migration is.
pub trait Progress {
    /// So many more legs of the book were read.
    fn legs_read(&mut self, legs: usize);

    /// Nothing more is told. Other output may follow.
    fn end(&mut self);
}
