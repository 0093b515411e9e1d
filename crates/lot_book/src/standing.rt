ghost use Rattle.std.specs.Prelude.{◌≡◌, IfOk};

use lot_base::Day;
use lot_command::{Currencies, Method};
use std::alloc::{AllocError, Global};

/// The state of an account: what its opening says of it, and whether it is closed.
pub struct Standing {
    /// The first day on which it may be posted to.
    pub opened: Day,
    /// The last day on which it may be posted to, where it is closed.
    pub closed: Option<Day>,
    pub method: Method,
    /// The currencies with which it was opened.
    pub allowed: Currencies,
}

impl Standing {
    /// Returns a copy. The only error is out of memory.
    pub fn copy(&self, alloc: Global) -> Result<Standing, AllocError>
        ensures { IfOk result (λ standing. standing ≡ self.now) }
    {
        Ok(Standing {
            opened: self.opened,
            closed: self.closed,
            method: self.method,
            allowed: self.allowed.copy(alloc)?,
        })
    }
}

impl Drop for Standing {
    /// It is written out, so that callers don't prove again how each part is dropped.
    fn drop(self) {
        let Standing {
            opened: _opened,
            closed: _closed,
            method: _method,
            allowed: _allowed,
        } = self;
    }
}
