use std::alloc::{AllocError, AllocFailed};
use thiserror::Error;

/// Why a posting with braces has no legs. Where several of the first six hold, the first in this order is reported.
#[derive(Clone, Copy, Debug, PartialEq, Eq, Error)]
pub enum BookingFault {
    /// It has zero units.
    #[error("the units are zero")]
    ZeroUnits,
    /// Its whole cost by its units isn't exactly a rate.
    #[error("the whole cost by the units is not exactly a rate")]
    InexactCost,
    /// It opens a lot, and gives no number or no currency.
    #[error("the cost has no number or no currency")]
    IncompleteCost,
    /// It reduces, and no lot fits.
    #[error("no lot fits")]
    NoMatch,
    /// It reduces under STRICT, several lots fit, and they don't hold exactly its units.
    #[error("several lots fit")]
    Ambiguous,
    /// It reduces, and the lots that fit hold less.
    #[error("the lots that fit hold less")]
    NotEnough,
    /// Out of memory for the legs, or for the lots that fit.
    #[error("out of memory")]
    Memory,
}

/// Why units take no lots.
#[derive(Clone, Copy, Debug, PartialEq, Eq, Error)]
pub enum TakeFault {
    /// The lots hold less.
    #[error("the lots hold less")]
    NotEnough,
    /// Out of memory for the legs.
    #[error("out of memory")]
    Memory,
}

impl From<AllocError> for TakeFault {
    ghost use Rattle.std.specs.Prelude.{◌≡◌};
    ghost use Rattle.lot_booking.specs.declared.fault.TakeFault.TheVariants.{Memory};

    ghost from_gives = { λ _ e. e ≡ Memory };

    fn from(_error: AllocError) -> TakeFault {
        TakeFault::Memory
    }
}

impl From<AllocError> for BookingFault {
    ghost use Rattle.std.specs.Prelude.{◌≡◌};
    ghost use Rattle.lot_booking.specs.declared.fault.BookingFault.TheVariants.{Memory};

    ghost from_gives = { λ _ e. e ≡ Memory };

    fn from(_error: AllocError) -> BookingFault {
        BookingFault::Memory
    }
}

impl<T: Drop> From<AllocFailed<T>> for BookingFault {
    ghost use Rattle.std.specs.Prelude.{◌≡◌};
    ghost use Rattle.lot_booking.specs.declared.fault.BookingFault.TheVariants.{Memory};

    ghost from_gives = { λ _ e. e ≡ Memory };

    fn from(_failed: AllocFailed<T>) -> BookingFault {
        BookingFault::Memory
    }
}
