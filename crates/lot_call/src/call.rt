//! What the program is called for.

ghost use Rattle.std.specs.Prelude.{◌≡◌};
ghost use Rattle.std.specs.Option.{option_copied};
ghost use Rattle.lot_call.specs.Call.{is_quiet, most, runs};
ghost use Rattle.lot_call.specs.Rounding.{rounding_of};

use lot_args::{Action, Effect, Notes};
use lot_files::Failure;
use lot_rounding::Rounding;
use std::time::Instant;

/// How many refusals are explained where not all are.
const TEN: u64 = 10;

/// What the program is called for.
#[derive(Drop)]
pub struct Call<'a> {
    pub rt: &'a HostRuntime,
    pub action: &'a Action,
    /// That of the book which the action names, if it does.
    pub path: &'a str,
    pub effect: Effect,
    pub notes: Notes,
    /// When it began, where the clock could be read.
    pub begun: Option<Instant>,
    /// Why a call of the book's files failed, where one did.
    pub failure: &'a Failure,
}

impl Call<'_> {
    /// Returns whether standard error is to stay empty.
    pub fn is_quiet(&self) -> bool
        ensures { result ≡ is_quiet self.now.notes }
    {
        matches!(self.notes, Notes::Quiet)
    }

    /// Returns what the call runs on a book one after another, in the plural, where it does so.
    pub fn runs(&self) -> Option<&'static str>
        ensures { option_copied result ≡ runs self.now.action.now }
    {
        match self.action {
            Action::Post(_) | Action::PostRow { .. } => Some("commands"),
            Action::Import(_) | Action::ImportBy(_) => Some("rows"),
            Action::Check { .. }
            | Action::Init { .. }
            | Action::Migrate { .. }
            | Action::Report { .. }
            | Action::Reconcile(_)
            | Action::Restore(_)
            | Action::Verify { .. } => None,
        }
    }

    /// Returns how many refusals are explained.
    pub fn most(&self) -> u64
        ensures { result ≡ most self.now.notes }
    {
        match self.notes {
            Notes::All => u64::MAX,
            Notes::Ten | Notes::Quiet => TEN,
        }
    }
}

/// Returns the account that takes the crumbs of an action, where one does.
pub fn rounding_of(action: &Action) -> Option<&Rounding>
    ensures { option_copied result ≡ rounding_of action.now }
{
    match action {
        Action::Check { rounding } | Action::PostRow { rounding, .. } => rounding.as_ref(),
        Action::Post(post) => post.rounding.as_ref(),
        Action::Import(import) => import.rounding.as_ref(),
        Action::ImportBy(import) => import.rounding.as_ref(),
        _ => None,
    }
}
