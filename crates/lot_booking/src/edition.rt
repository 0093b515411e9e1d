/// An edition of the rules: how it decides between lots that tie.
#[derive(Clone, Copy, Debug, PartialEq, Eq)]
pub enum Edition {
    /// By the keys of the lots.
    First,
    /// By which lot was opened first, as Beancount does.
    Second,
}
