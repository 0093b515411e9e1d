ghost use Rattle.std.specs.Prelude.{◌≡◌, IfOk};

use lot_base::Label;
use std::alloc::AllocError;

/// Identifies a command: where it comes from, and its name there (docs/RULES.md, Keys and repeats).
#[derive(Debug, PartialEq, Eq)]
pub struct Key {
    pub source: Label,
    pub name: Label,
}

impl Key {
    /// Returns a copy. The only error is out of memory.
    pub fn copy(&self) -> Result<Key, AllocError>
        ensures { IfOk result (λ key. key ≡ self.now) }
    {
        Ok(Key {
            source: self.source.copy()?,
            name: self.name.copy()?,
        })
    }
}

impl Drop for Key {
    /// It is written out, so that callers don't prove again how each part is dropped.
    fn drop(self) {
        let Key {
            source: _source,
            name: _name,
        } = self;
    }
}
