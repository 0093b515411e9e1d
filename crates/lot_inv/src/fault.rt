use std::alloc::AllocError;
use thiserror::Error;

/// Why units aren't added to an inventory.
#[derive(Clone, Copy, Debug, PartialEq, Eq, Error)]
pub enum InventoryFault {
    /// The sum is out of range.
    #[error("the sum is out of range")]
    Range,
    /// Out of memory for a new lot or a new commodity.
    #[error("out of memory")]
    Memory,
}

impl From<AllocError> for InventoryFault {
    ghost use Rattle.std.specs.Prelude.{◌≡◌};
    ghost use Rattle.lot_inv.specs.declared.fault.InventoryFault.TheVariants.{Memory};

    ghost from_gives = { λ _ e. e ≡ Memory };

    fn from(_error: AllocError) -> InventoryFault {
        InventoryFault::Memory
    }
}
