use std::alloc::AllocError;
use thiserror::Error;

/// Why no name is made of a text.
#[derive(Clone, Copy, Debug, PartialEq, Eq, Error)]
pub enum NameFault {
    /// The text isn't an account.
    #[error("not an account")]
    BadAccount,
    /// The text isn't a commodity.
    #[error("not a commodity")]
    BadCommodity,
    /// The text isn't a label.
    #[error("not a label")]
    BadLabel,
    /// The text isn't a note.
    #[error("not a note")]
    BadNote,
    /// The text is a name, but there is no memory for a copy of it.
    #[error("out of memory")]
    Memory,
}

impl From<AllocError> for NameFault {
    ghost use Rattle.std.specs.Prelude.{◌≡◌};
    ghost use Rattle.lot_base.specs.declared.fault.NameFault.TheVariants.{Memory};

    ghost from_gives = { λ _ e. e ≡ Memory };

    fn from(_error: AllocError) -> NameFault {
        NameFault::Memory
    }
}
