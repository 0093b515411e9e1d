ghost use Rattle.std.specs.Prelude.{◌≡◌, IfOk, option_map};
ghost use Rattle.std.specs.String.{string_bytes};
ghost use Rattle.lot_noted.specs.Book.{asked_in, is_asked};
ghost use Rattle.lot_recall.specs.Scope.{owned};

use lot_base::Day;
use lot_noted::RegisterScope;
use lot_register::NotedLeg;
use std::alloc::{AllocError, Global};

/// Which legs a register is over, with texts of its own.
#[derive(Drop)]
pub(crate) struct OwnedScope {
    account: String,
    commodity: Option<String>,
    last: Option<Day>,
}

impl OwnedScope {
    /// Returns a copy of a scope. The only error is out of memory.
    pub fn of(alloc: Global, scope: &RegisterScope<'_>) -> Result<OwnedScope, AllocError>
        ensures { IfOk result (λ own. owned own ≡ asked_in scope.now) }
    {
        let account = String::from_str(alloc, scope.account)?;
        let commodity = text_of(alloc, scope.commodity)?;
        Ok(OwnedScope {
            account,
            commodity,
            last: scope.last,
        })
    }

    /// Returns whether a leg is one of these.
    pub fn has(&self, leg: &NotedLeg) -> bool
        ensures { result ≡ is_asked (owned self.now) leg.now }
    {
        let scope = RegisterScope {
            account: self.account.as_str(),
            commodity: self.commodity.as_deref(),
            last: self.last,
        };
        scope.has_noted(leg)
    }
}

/// Returns a copy of a text, if there is one. The only error is out of memory.
fn text_of(alloc: Global, text: Option<&str>) -> Result<Option<String>, AllocError>
    ensures { IfOk result (λ copy.
        option_map string_bytes copy ≡ option_map (λ t. t.now) text.entry) }
{
    match text {
        Some(text) => Ok(Some(String::from_str(alloc, text)?)),
        None => Ok(None),
    }
}
