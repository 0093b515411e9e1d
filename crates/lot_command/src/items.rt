use std::alloc::{AllocFailed, Global};
use std::marker::Model;

/// For how many items the first one makes room. A transaction mostly has two or three postings.
const FIRST_ROOM: usize = 3;

/// Items in their order. A contract sees them as a list.
pub struct Items<T> {
    items: Vec<T>,
}

impl<T> Model for Items<T> {
    ghost use Rattle.std.specs.Prelude.{List};

    ghost Value = { List T };

    ghost view = { λ a. a.items.items };
}

impl<T: Drop> Items<T> {
    ghost use Rattle.std.specs.Prelude.{◌≡◌, [], ◌∷◌, ◌++◌, IfErr, OnOk, OnErr};

    /// Returns an empty list.
    pub fn new(alloc: Global) -> Items<T>
        ensures { result ≡ [] }
    {
        Items {
            items: Vec::new(alloc),
        }
    }

    /// Appends an item. Where there is no memory for it, the list is unchanged, and the error gives the item back.
    pub fn push(&mut self, item: T) -> Result<(), AllocFailed<T>>
        ensures ok { OnOk result (self.new ≡ self.old ++ item ∷ []) }
        ensures err { OnErr result (self.new ≡ self.old) }
        ensures back { IfErr result (λ failed. failed.value ≡ item) }
    {
        if self.items.is_empty() && self.items.reserve_exact(FIRST_ROOM).is_err() {
            return Err(AllocFailed { value: item });
        }
        self.items.push(item)
    }

    /// Gives back memory that the items don't take.
    pub fn shrink_to_fit(&mut self)
        ensures { self.new ≡ self.old }
    {
        self.items.shrink_to_fit();
    }

    /// Returns all items.
    pub fn as_slice(&self) -> &[T]
        ensures { result.now ≡ self.now }
    {
        self.items.as_slice()
    }
}

impl<T: Drop> Drop for Items<T> {
    /// It is written out, so that callers don't prove again how each part is dropped.
    fn drop(self) {
        let Items { items: _items } = self;
    }
}
