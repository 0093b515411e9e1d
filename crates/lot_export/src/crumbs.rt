//! Where the crumbs of an import go.
ghost use Rattle.std.specs.Prelude.{◌≡◌, ◌≢◌, ℕ, List, IfOk, IfErr};
ghost use Rattle.std.specs.Option.{option_copied};
ghost use Rattle.lot_export.specs.Crumbs.{HasNoRounding, IsAccountOf, IsRoundingOf, crumbs_in};

use lot_base::{Account, NameFault};
use lot_profile::{AccountOf, AccountRole, Piece, Profile};
use lot_rounding::{Decimals, Rounding};
use std::alloc::Global;

/// Returns where the crumbs of an import by a profile go: the account that the profile names for them, with its bound, and amounts
/// of as many decimals as units have; `None` where it names none.
///
/// The error is `BadAccount` where what it names is no account. Else it is `Memory`.
pub fn rounding_of(alloc: Global, profile: &Profile) -> Result<Option<Rounding>, NameFault>
    ensures ok { IfOk result (IsRoundingOf profile.now (crumbs_in profile.now.accounts)) }
    ensures fault { IfErr result (HasNoRounding (crumbs_in profile.now.accounts)) }
{
    let Some(named) = crumbs_in(profile.accounts.as_slice()) else {
        return Ok(None);
    };
    Ok(Some(Rounding {
        account: account_of(alloc, named.pieces.as_slice())?,
        within: profile.basis.within,
        decimals: Decimals::of_units(),
    }))
}

/// Returns the account for crumbs among those that a profile names.
fn crumbs_in(accounts: &[AccountOf]) -> Option<&AccountOf>
    ensures { option_copied result ≡ crumbs_in accounts.now }
{
    accounts
        .iter()
        .find(|account| account.role == AccountRole::Rounding)
}

/// Returns the account of a name without parts of a row.
fn account_of(alloc: Global, pieces: &[Piece]) -> Result<Account, NameFault>
    ensures ok { IfOk result (IsAccountOf pieces.now) }
    ensures fault { IfErr result (λ fault. fault ≢ NameFault.Memory
        → (fault ≡ NameFault.BadAccount) × ((name : List ℕ) → IsAccountOf pieces.now name → ⊥)) }
{
    match pieces {
        [Piece::Text(name)] => match Account::new(alloc, name.as_str()) {
            Ok(account) => Ok(account),
            Err(NameFault::Memory) => Err(NameFault::Memory),
            Err(_) => Err(NameFault::BadAccount),
        },
        _ => Err(NameFault::BadAccount),
    }
}
