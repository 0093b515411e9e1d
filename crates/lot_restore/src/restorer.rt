use lot_load::Kept;

/// What is known while the commands of a dump are restored.
#[derive(Drop)]
pub(crate) struct Restorer {
    /// What is kept of the book so far, if anything is.
    pub(crate) kept: Option<Kept>,
    /// The place of migration of the book that was dumped.
    pub(crate) place: u32,
}
