use std::alloc::{AllocError, AllocFailed};
use thiserror::Error;

/// Why lots aren't split. Of several faults, the first in this order is reported.
#[derive(Clone, Copy, Debug, PartialEq, Eq, Error)]
pub enum SplitFault {
    /// The account isn't opened. Splits of given lots have no such fault.
    #[error("the account isn't opened")]
    NotOpened,
    /// The account holds no lot of the commodity.
    #[error("no lot is held")]
    NothingHeld,
    /// There are more than 60 lots.
    #[error("more than 60 lots")]
    TooManyLots,
    /// The method of the account takes lots, and not all of them have units on one side of zero.
    #[error("lots of both signs")]
    BothSigns,
    /// The units of all lots together are out of range.
    #[error("the units held are out of range")]
    SumOutOfRange,
    /// The ratio isn't above zero, or one of its numbers in lowest terms is above 100.
    #[error("not a ratio of numbers from 1 to 100")]
    BadRatio,
    /// The units of a lot can't be divided at eight decimals. The number is the place of the first such lot, from 0.
    #[error("the units of lot {0} can't be divided")]
    Undivided(usize),
    /// The units of a lot or its cost would be out of range.
    #[error("units or a cost out of range")]
    OutOfRange,
    /// The transaction would have more than 64 postings.
    #[error("more than 64 postings")]
    TooManyPostings,
    /// Out of memory.
    #[error("out of memory")]
    Memory,
}

impl From<AllocError> for SplitFault {
    ghost use Rattle.std.specs.Prelude.{◌≡◌};
    ghost use Rattle.lot_split.specs.declared.fault.SplitFault.TheVariants.{Memory};

    ghost from_gives = { λ _ e. e ≡ Memory };

    fn from(_error: AllocError) -> SplitFault {
        SplitFault::Memory
    }
}

impl<T: Drop> From<AllocFailed<T>> for SplitFault {
    ghost use Rattle.std.specs.Prelude.{◌≡◌};
    ghost use Rattle.lot_split.specs.declared.fault.SplitFault.TheVariants.{Memory};

    ghost from_gives = { λ _ e. e ≡ Memory };

    fn from(_failed: AllocFailed<T>) -> SplitFault {
        SplitFault::Memory
    }
}
