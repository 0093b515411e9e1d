ghost use Rattle.std.specs.Prelude.{◌≡◌};
ghost use Rattle.lot_without.specs.Without.{is_met};

use lot_base::Label;
use lot_command::Key;

/// Which entries of a dump are left out.
#[derive(Debug, PartialEq, Eq)]
pub enum Without {
    /// The entry under that key.
    Key(Key),
    /// The entries of that batch: those whose keys have it as their source.
    Batch(Label),
    /// The entries whose numbers, as their headings give them, are in that range, both ends included.
    Entries { first: u32, last: u32 },
}

impl Without {
    /// Returns whether the entry of that number, under that key, is left out.
    pub fn meets(&self, number: u32, key: &Key) -> bool
        ensures { result ≡ is_met self.now number key.now }
    {
        match self {
            Without::Key(left) => left.source == key.source && left.name == key.name,
            Without::Batch(source) => *source == key.source,
            Without::Entries { first, last } => *first <= number && number <= *last,
        }
    }
}

impl Drop for Without {
    /// It is written out, so that callers don't prove again how each part is dropped.
    fn drop(self) {
        match self {
            Without::Key(_key) => {}
            Without::Batch(_source) => {}
            Without::Entries {
                first: _first,
                last: _last,
            } => {}
        }
    }
}
