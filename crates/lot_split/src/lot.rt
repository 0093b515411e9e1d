ghost use Rattle.std.specs.Prelude.{◌≡◌, IfOk};

use lot_base::Label;
use lot_cost::LotKey;
use lot_num::Units;
use std::alloc::AllocError;

/// A lot with its units.
pub struct HeldLot {
    pub key: LotKey,
    /// They aren't zero in a book. Below zero they are owed.
    pub units: Units,
}

impl Drop for HeldLot {
    /// It is written out, so that callers don't prove again how each part is dropped.
    fn drop(self) {
        let HeldLot {
            key: _key,
            units: _units,
        } = self;
    }
}

/// Returns a copy of the label of a lot, if it has one. The only error is out of memory.
pub(crate) fn label_of(key: &LotKey) -> Result<Option<Label>, AllocError>
    ensures { IfOk result (λ label. label ≡ key.now.label) }
{
    match &key.label {
        Some(label) => Ok(Some(label.copy()?)),
        None => Ok(None),
    }
}
