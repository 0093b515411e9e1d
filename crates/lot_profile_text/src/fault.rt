use crate::entry::Form;
use lot_field::Text;
use std::alloc::{AllocError, AllocFailed};

/// Why a text says no profile. Keys are named from the outermost on, with a comma between, as `kind 2, when, Quantity`; items of
/// lists are counted from 1.
pub enum ProfileFault {
    /// The text is no TOML: it goes wrong in that line, counted from 1.
    NoToml(usize),
    /// No profile has that key there.
    Unknown(Text),
    /// That key has to be there.
    Missing(Text),
    /// What stands under that key has to be of that form.
    Wrong(Text, Form),
    /// Out of memory.
    Memory,
}

impl Drop for ProfileFault {
    /// It is written out, so that callers don't prove again how each part is dropped.
    fn drop(self) {
        match self {
            ProfileFault::NoToml(_line) => {}
            ProfileFault::Unknown(_key) => {}
            ProfileFault::Missing(_key) => {}
            ProfileFault::Wrong(_key, _form) => {}
            ProfileFault::Memory => {}
        }
    }
}

impl From<AllocError> for ProfileFault {
    ghost use Rattle.std.specs.Prelude.{◌≡◌};
    ghost use Rattle.lot_profile_text.specs.declared.fault.ProfileFault.TheVariants.{Memory};

    ghost from_gives = { λ _ e. e ≡ Memory };

    fn from(_error: AllocError) -> ProfileFault {
        ProfileFault::Memory
    }
}

impl<T: Drop> From<AllocFailed<T>> for ProfileFault {
    ghost use Rattle.std.specs.Prelude.{◌≡◌};
    ghost use Rattle.lot_profile_text.specs.declared.fault.ProfileFault.TheVariants.{Memory};

    ghost from_gives = { λ _ e. e ≡ Memory };

    fn from(_error: AllocFailed<T>) -> ProfileFault {
        ProfileFault::Memory
    }
}
