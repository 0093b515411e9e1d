ghost use Rattle.std.specs.Prelude.{◌≡◌, ◌≢◌, ◌↔◌, IsErrOf, OnOk};
ghost use Rattle.lot_dump.specs.Form.{IsHead};
ghost use Rattle.lot_parts.specs.Dump.{Dump, IsUnchanged};
ghost use Rattle.lot_parts.specs.Sum.{IsSumOf};

use crate::step::Sum;
use lot_dump::Head;
use thiserror::Error;

/// Why what was found of a dump isn't what the dump says.
#[derive(Clone, Copy, Debug, PartialEq, Eq, Error)]
pub enum SumFault {
    /// The end has another digest than all that stands above it.
    #[error("the digest of this dump is wrong")]
    WrongDigest,
    /// The head or the end says another number of entries than there are.
    #[error("this dump has another number of entries than it says")]
    WrongCount,
}

impl Sum {
    /// Compares what was found of a dump with what its head and its end say. Where that is the same, nothing of it was changed.
    ///
    /// The error is `WrongDigest` where the digest is another, and else `WrongCount` where a number is.
    pub fn compare(&self, head: Head) -> Result<(), SumFault>
        ensures unchanged { OnOk result ((dump : Dump) → IsSumOf self.now dump
            → dump.head ≡ head → IsHead head → IsUnchanged dump) }
        ensures digest { IsErrOf result SumFault.WrongDigest
            ↔ (self.now.end.digest ≢ self.now.digest) }
        ensures count { IsErrOf result SumFault.WrongCount
            → ((head.entries ≡ self.now.headings)
            × (self.now.end.entries ≡ self.now.headings) → ⊥) }
    {
        if self.end.digest != self.digest {
            return Err(SumFault::WrongDigest);
        }
        if u64::from(head.entries) != self.headings || self.end.entries != head.entries {
            return Err(SumFault::WrongCount);
        }
        Ok(())
    }
}
