//! By which rules a row is read, and where roles are found by them.
ghost use Rattle.std.specs.Prelude.{◌≡◌};
ghost use Rattle.std.specs.List.{list_any};
ghost use Rattle.std.specs.Option.{option_map};
ghost use Rattle.lot_roles.specs.Rules.{has_sources, is_turned, named_sources, pieces_in, pieces_of, same_account_role, same_role, sources_in, sources_of};

use lot_profile::{AccountOf, AccountRole, KindRule, Piece, Profile, Role, Source, Sources, Table};

/// The rules by which a row is read: those of its kind go before those of its table.
#[derive(Clone, Copy)]
pub struct Rules<'a> {
    pub profile: &'a Profile,
    pub table: &'a Table,
    pub kind: &'a KindRule,
}

/// Returns whether the kind or the table names sources of a role, whether or not they say anything in a row.
pub fn has_sources(rules: &Rules, role: Role) -> bool
    ensures { result ≡ has_sources rules.now role }
{
    named_sources(rules, role).is_some()
}

/// Returns the sources of a role, which are none where neither the kind nor the table names any.
pub(crate) fn sources<'a>(rules: &Rules<'a>, role: Role) -> &'a [Source]
    ensures { result.now ≡ sources_of rules.now role }
{
    match named_sources(rules, role) {
        Some(sources) => sources,
        None => &[],
    }
}

/// Returns whether the sign of a role is printed the other way.
pub(crate) fn is_turned(rules: &Rules, role: Role) -> bool
    ensures { result ≡ is_turned rules.now role }
{
    let turned = match &rules.kind.turn {
        Some(turned) => turned,
        None => &rules.table.turn,
    };
    has_role(turned.as_slice(), role)
}

/// Returns the pieces of the account for something, if one is named.
pub(crate) fn pieces<'a>(rules: &Rules<'a>, role: AccountRole) -> Option<&'a [Piece]>
    ensures { option_map (λ pieces. pieces.now) result ≡ pieces_of rules.now role }
{
    match pieces_in(rules.kind.accounts.as_slice(), role) {
        Some(pieces) => Some(pieces),
        None => pieces_in(rules.profile.accounts.as_slice(), role),
    }
}

/// Returns the sources of a role that the kind names, or else those that the table names.
fn named_sources<'a>(rules: &Rules<'a>, role: Role) -> Option<&'a [Source]>
    ensures { option_map (λ sources. sources.now) result ≡ named_sources rules.now role }
{
    match sources_in(rules.kind.columns.as_slice(), role) {
        Some(sources) => Some(sources),
        None => sources_in(rules.table.columns.as_slice(), role),
    }
}

/// Returns the sources of a role among those of all roles, if it is there.
fn sources_in(all: &[Sources], role: Role) -> Option<&[Source]>
    ensures { option_map (λ sources. sources.now) result ≡ sources_in role all.now }
{
    let sources = all.iter().find(|sources| is_role(sources.role, role))?;
    Some(sources.from.as_slice())
}

/// Returns the pieces of the account for something among those of all accounts, if it is there.
fn pieces_in(all: &[AccountOf], role: AccountRole) -> Option<&[Piece]>
    ensures { option_map (λ pieces. pieces.now) result ≡ pieces_in role all.now }
{
    let account = all
        .iter()
        .find(|account| is_account_role(account.role, role))?;
    Some(account.pieces.as_slice())
}

/// Returns whether a role is one of some roles.
fn has_role(roles: &[Role], role: Role) -> bool
    ensures { result ≡ list_any (λ r. same_role r role) roles.now }
{
    roles.iter().any(|one| is_role(*one, role))
}

/// Returns whether two roles are the same.
fn is_role(one: Role, other: Role) -> bool
    ensures { result ≡ same_role one other }
{
    one == other
}

/// Returns whether two accounts are for the same.
fn is_account_role(one: AccountRole, other: AccountRole) -> bool
    ensures { result ≡ same_account_role one other }
{
    one == other
}
