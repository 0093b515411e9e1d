ghost use Rattle.std.specs.Prelude.{◌≡◌, ◌↔◌, false, IfOk, IsErrOf, IsOk, IsTrue};
ghost use Rattle.std.specs.List.{list_all};
ghost use Rattle.lot_args.specs.Batch.{is_batch, is_batch_byte};
ghost use Rattle.lot_args.specs.declared.batch.BatchFault.TheVariants.{Bad};

use std::alloc::{AllocError, Global};
use std::marker::Model;

/// The longest batch, in bytes.
const MAX_BATCH: usize = 32;

/// The name of a batch. Commands that are sent under one name are told apart by their numbers.
///
/// It has 1 to 32 ASCII letters, digits, points, underlines and dashes. A contract sees its bytes.
#[derive(Drop)]
pub struct Batch {
    name: String,
}

impl Model for Batch {
    ghost use Rattle.std.specs.Prelude.{ℕ, List, IsTrue};
    ghost use Rattle.std.specs.String.{string_bytes};
    ghost use Rattle.lot_args.specs.Batch.{is_batch, is_batch_byte};

    ghost Value = { List ℕ };

    ghost view = { λ b. string_bytes b.name };

    ghost invariant = { λ b. IsTrue (is_batch (string_bytes b.name)) };
}

/// Why no batch is made of a text.
#[derive(Clone, Copy)]
pub enum BatchFault {
    /// The text isn't the name of a batch.
    Bad,
    /// Out of memory.
    Memory,
}

impl From<AllocError> for BatchFault {
    ghost use Rattle.lot_args.specs.declared.batch.BatchFault.TheVariants.{Memory};

    ghost from_gives = { λ _ fault. fault ≡ Memory };

    fn from(_error: AllocError) -> BatchFault {
        BatchFault::Memory
    }
}

impl Batch {
    /// Returns the batch of that name. The error is `Bad` exactly where the text isn't the name of one, else out of memory.
    pub fn new(alloc: Global, text: &str) -> Result<Batch, BatchFault>
        ensures ok { IfOk result (λ batch. batch ≡ text.now) }
        ensures good { IsOk result → IsTrue (is_batch text.now) }
        ensures bad { IsErrOf result Bad ↔ (is_batch text.now ≡ false) }
    {
        if !Batch::is_name(text) {
            return Err(BatchFault::Bad);
        }
        Ok(Batch {
            name: String::from_str(alloc, text)?,
        })
    }

    /// Returns whether there is a batch of that name.
    pub fn is_name(text: &str) -> bool
        ensures { result ≡ is_batch text.now }
    {
        !text.is_empty() && text.len() <= MAX_BATCH && are_batch_bytes(text.as_bytes())
    }

    /// Returns the name.
    pub fn as_str(&self) -> &str
        ensures value { result.now ≡ self.now }
        ensures good { IsTrue (is_batch self.now) }
    {
        self.name.as_str()
    }
}

/// Returns whether each byte may stand in the name of a batch.
fn are_batch_bytes(bytes: &[u8]) -> bool
    ensures { result ≡ list_all is_batch_byte bytes.now }
{
    bytes.iter().all(|byte| is_batch_byte(*byte))
}

/// Returns whether the byte may stand in the name of a batch.
fn is_batch_byte(byte: u8) -> bool
    ensures { result ≡ is_batch_byte byte }
{
    byte.is_ascii_alphanumeric() || matches!(byte, b'.' | b'_' | b'-')
}
