//! Which rows are of a kind.
ghost use Rattle.std.specs.Prelude.{◌≡◌, option_map};
ghost use Rattle.std.specs.List.{list_any};
ghost use Rattle.lot_profile_text.specs.Kinds.{apart_from_crumbs, is_rounding, kind_of, kinds_of};
ghost use Rattle.lot_profile_text.specs.Reading.{Gives};
ghost use Rattle.toml.specs.View.{view};

use crate::fault::ProfileFault;
use crate::keys::{ACCOUNTS, COLUMNS, IS, KIND, KIND_TURN, KINDS, WHEN};
use crate::list::{Keyed, Listed, some};
use crate::part::{Part, entry, perhaps};
use crate::place::below;
use crate::section::section;
use crate::word::Word;
use lot_command::Items;
use lot_profile::{AccountOf, AccountRole, Condition, KindRule, Role, Sources};
use std::alloc::Global;
use toml::Value;

impl Part for KindRule {
    ghost said = { kind_of };

    fn read(alloc: Global, place: &str, value: &Value) -> Result<KindRule, ProfileFault> {
        section(alloc, place, value, KIND.entries)?;
        let kind = entry(alloc, place, value, &IS)?;
        let when: Keyed<Condition> = entry(alloc, place, value, &WHEN)?;
        let columns: Keyed<Sources> = entry(alloc, place, value, &COLUMNS)?;
        let turn: Option<Listed<Role>> = perhaps(alloc, place, value, &KIND_TURN)?;
        let named: Keyed<AccountOf> = entry(alloc, place, value, &ACCOUNTS)?;
        let key = below(alloc, place, ACCOUNTS.key)?;
        let accounts = apart_from_crumbs(alloc, key.as_str(), named.into_members())?;
        Ok(KindRule {
            kind,
            when: when.into_members(),
            columns: columns.into_members(),
            turn: into_roles(turn),
            accounts,
        })
    }
}

/// Returns the roles of a list, if there is one.
fn into_roles(turn: Option<Listed<Role>>) -> Option<Items<Role>>
    ensures { result ≡ option_map (λ roles. roles.items) turn }
{
    match turn {
        Some(roles) => Some(roles.into_items()),
        None => None,
    }
}

/// Returns the accounts of a kind, or the fault that the one for crumbs, which is one for all, stands among them.
#[tactic(auto, unfolding(crate::specs::Kinds::apart_from_crumbs))]
fn apart_from_crumbs(
    alloc: Global,
    place: &str,
    accounts: Items<AccountOf>,
) -> Result<Items<AccountOf>, ProfileFault>
    ensures { Gives result (apart_from_crumbs place.now accounts) }
{
    if has_rounding(accounts.as_slice()) {
        let key = below(alloc, place, AccountRole::Rounding.word())?;
        return Err(ProfileFault::Unknown(key));
    }
    Ok(accounts)
}

/// Returns whether one of the accounts is for crumbs.
fn has_rounding(accounts: &[AccountOf]) -> bool
    ensures { result ≡ list_any (λ account. is_rounding account.role) accounts.now }
{
    accounts.iter().any(|account| is_rounding(account.role))
}

fn is_rounding(role: AccountRole) -> bool
    ensures { result ≡ is_rounding role }
{
    matches!(role, AccountRole::Rounding)
}

/// Returns the kinds of the section at a place, one or more, or the first fault.
#[tactic(auto, unfolding(crate::specs::Kinds::kinds_of))]
pub(crate) fn kinds(
    alloc: Global,
    place: &str,
    value: &Value,
) -> Result<Items<KindRule>, ProfileFault>
    ensures { Gives result (kinds_of place.now (view value.now)) }
{
    let kinds: Listed<KindRule> = entry(alloc, place, value, &KINDS)?;
    let key = below(alloc, place, KINDS.key)?;
    some(alloc, key.as_str(), kinds.into_items())
}
