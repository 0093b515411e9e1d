//! What is missing in a profile whose parts are all right.
ghost use Rattle.std.specs.Prelude.{◌≡◌, find, option_copied, IfOk};
ghost use Rattle.std.specs.List.{list_any};
ghost use Rattle.lot_profile_text.specs.Complete.{all_needs_of, complete, has_header, if_account, if_condition, if_role, if_sources, is_named, is_source_named, name_of, needs_of, numbered_conditions, numbered_kind, numbered_kinds, numbered_roles, numbered_table, table_complete, table_place, tables_complete};
ghost use Rattle.lot_profile_text.specs.Needs.{AllHaveNeeds};
ghost use Rattle.lot_profile_text.specs.Reading.{Gives};

use crate::entry::Form;
use crate::fault::ProfileFault;
use crate::keys::{ACCOUNTS, COLUMNS, KINDS, ROWS, TABLES_OF_FILE, WHEN};
use crate::needs::{missing_account, missing_role};
use crate::place::{below, numbered};
use crate::word::Word;
use lot_field::Text;
use lot_profile::{
    AccountRole, Column, Condition, Header, KindRule, Profile, Role, Source, Sources, Table,
};
use std::alloc::{AllocError, Global};

/// How the tables of a file are said.
#[derive(Clone, Copy)]
pub(crate) enum Shape {
    /// At the top, where there is one.
    OneTable,
    /// Each in a table of its own.
    Tables,
}

/// Returns a profile, where it lacks nothing, or the first fault.
#[tactic(auto, unfolding(crate::specs::Complete::complete))]
pub(crate) fn complete(
    alloc: Global,
    shape: Shape,
    profile: Profile,
) -> Result<Profile, ProfileFault>
    ensures said { Gives result (complete shape profile) }
    ensures needs { IfOk result AllHaveNeeds }
{
    tables_complete(alloc, shape, &profile)?;
    Ok(profile)
}

/// Tests that the tables of a profile lack nothing.
fn tables_complete(alloc: Global, shape: Shape, profile: &Profile) -> Result<(), ProfileFault>
    ensures { Gives result (tables_complete shape profile.now 1 profile.now.tables) }
{
    for (index, table) in profile.tables.as_slice().iter().enumerate() {
        let place = table_place(alloc, shape, index + 1)?;
        table_complete(alloc, place.as_str(), profile, table)?;
    }
    Ok(())
}

/// Returns where a table stands, by its number: at the top, where it is the only one. The only error is out of memory.
fn table_place(alloc: Global, shape: Shape, number: usize) -> Result<Text, AllocError>
    ensures { IfOk result (λ place. place ≡ table_place shape number) }
{
    match shape {
        Shape::OneTable => Text::new(alloc, ""),
        Shape::Tables => numbered(alloc, TABLES_OF_FILE.key, number),
    }
}

/// Tests that the table at a place lacks nothing.
#[tactic(auto, unfolding(crate::specs::Complete::table_complete))]
fn table_complete(
    alloc: Global,
    place: &str,
    profile: &Profile,
    table: &Table,
) -> Result<(), ProfileFault>
    ensures { Gives result (table_complete place.now profile.now table.now) }
{
    all_needs(alloc, place, profile, table)?;
    if has_header(&table.header) {
        Ok(())
    } else {
        numbered_table(alloc, place, table)
    }
}

/// Returns whether a table has a header.
fn has_header(header: &Header) -> bool
    ensures { result ≡ has_header header.now }
{
    !matches!(header, Header::Absent)
}

// ---- Roles and accounts.

/// Tests that the kinds of the table at a place have what they need.
fn all_needs(
    alloc: Global,
    place: &str,
    profile: &Profile,
    table: &Table,
) -> Result<(), ProfileFault>
    ensures { Gives result (all_needs_of place.now profile.now table.now table.now.kinds) }
{
    for rule in table.kinds.as_slice() {
        needs(alloc, place, profile, table, rule)?;
    }
    Ok(())
}

/// Tests that a kind of the table at a place has the roles, and then the accounts, that it needs.
#[tactic(auto, unfolding(crate::specs::Complete::needs_of))]
fn needs(
    alloc: Global,
    place: &str,
    profile: &Profile,
    table: &Table,
    rule: &KindRule,
) -> Result<(), ProfileFault>
    ensures { Gives result (needs_of place.now profile.now table.now rule.now) }
{
    role_is_there(alloc, place, missing_role(&profile.basis, table, rule))?;
    account_is_there(alloc, missing_account(profile, table, rule))
}

/// Tests that no role is missing in the table at a place.
fn role_is_there(alloc: Global, place: &str, missing: Option<Role>) -> Result<(), ProfileFault>
    ensures { Gives result (if_role place.now missing) }
{
    let Some(role) = missing else {
        return Ok(());
    };
    let columns = below(alloc, place, COLUMNS.key)?;
    let key = below(alloc, columns.as_str(), role.word())?;
    Err(ProfileFault::Missing(key))
}

/// Tests that no account is missing.
fn account_is_there(alloc: Global, missing: Option<AccountRole>) -> Result<(), ProfileFault>
    ensures { Gives result (if_account missing) }
{
    match missing {
        Some(role) => Err(ProfileFault::Missing(below(alloc, ACCOUNTS.key, role.word())?)),
        None => Ok(()),
    }
}

// ---- Names of columns, where a table has no header.

/// Tests that all columns of the table at a place are named by their numbers.
#[tactic(auto, unfolding(crate::specs::Complete::numbered_table))]
fn numbered_table(alloc: Global, place: &str, table: &Table) -> Result<(), ProfileFault>
    ensures { Gives result (numbered_table place.now table.now) }
{
    let rows = below(alloc, place, ROWS.key)?;
    numbered_conditions(alloc, rows.as_str(), table.rows.as_slice())?;
    let columns = below(alloc, place, COLUMNS.key)?;
    numbered_roles(alloc, columns.as_str(), table.columns.as_slice())?;
    let kinds = below(alloc, place, KINDS.key)?;
    numbered_kinds(alloc, kinds.as_str(), table.kinds.as_slice())
}

/// Tests that all columns of the kinds at a place are named by their numbers.
fn numbered_kinds(alloc: Global, place: &str, kinds: &[KindRule]) -> Result<(), ProfileFault>
    ensures { Gives result (numbered_kinds place.now 1 kinds.now) }
{
    for (index, rule) in kinds.iter().enumerate() {
        let place = numbered(alloc, place, index + 1)?;
        numbered_kind(alloc, place.as_str(), rule)?;
    }
    Ok(())
}

/// Tests that all columns of the kind at a place are named by their numbers.
fn numbered_kind(alloc: Global, place: &str, rule: &KindRule) -> Result<(), ProfileFault>
    ensures { Gives result (numbered_kind place.now rule.now) }
{
    let columns = below(alloc, place, COLUMNS.key)?;
    numbered_roles(alloc, columns.as_str(), rule.columns.as_slice())?;
    let when = below(alloc, place, WHEN.key)?;
    numbered_conditions(alloc, when.as_str(), rule.when.as_slice())
}

/// Tests that the conditions at a place are on columns by their numbers.
#[tactic(auto, unfolding(crate::specs::Complete::numbered_conditions))]
fn numbered_conditions(
    alloc: Global,
    place: &str,
    conditions: &[Condition],
) -> Result<(), ProfileFault>
    ensures { Gives result (numbered_conditions place.now conditions.now) }
{
    match named_condition(conditions) {
        Some(condition) => {
            let key = below(alloc, place, name_of(&condition.column))?;
            Err(ProfileFault::Wrong(key, Form::ColumnNumber))
        }
        None => Ok(()),
    }
}

/// Returns the first condition on a column by its name.
fn named_condition(conditions: &[Condition]) -> Option<&Condition>
    ensures { option_copied result
        ≡ find (λ condition. is_named condition.column) conditions.now }
{
    conditions
        .iter()
        .find(|condition| is_named(&condition.column))
}

/// Tests that the roles at a place are found by numbers of columns.
#[tactic(auto, unfolding(crate::specs::Complete::numbered_roles))]
fn numbered_roles(alloc: Global, place: &str, columns: &[Sources]) -> Result<(), ProfileFault>
    ensures { Gives result (numbered_roles place.now columns.now) }
{
    match named_sources(columns) {
        Some(sources) => {
            let key = below(alloc, place, sources.role.word())?;
            Err(ProfileFault::Wrong(key, Form::ColumnNumber))
        }
        None => Ok(()),
    }
}

/// Returns where the first role is found that is found by a name.
fn named_sources(columns: &[Sources]) -> Option<&Sources>
    ensures { option_copied result
        ≡ find (λ sources. list_any is_source_named sources.from) columns.now }
{
    columns
        .iter()
        .find(|sources| are_named(sources.from.as_slice()))
}

/// Returns whether one of the sources is a column by its name.
fn are_named(sources: &[Source]) -> bool
    ensures { result ≡ list_any is_source_named sources.now }
{
    sources.iter().any(|source| is_source_named(source))
}

fn is_source_named(source: &Source) -> bool
    ensures { result ≡ is_source_named source.now }
{
    match source {
        Source::Column(column) => is_named(column),
        Source::Constant(_) => false,
        Source::Until { column, .. } => is_named(column),
    }
}

/// Returns whether a column is meant by its name.
fn is_named(column: &Column) -> bool
    ensures { result ≡ is_named column.now }
{
    matches!(column, Column::Named(_))
}

/// Returns the name of a column, which is empty where it is meant by its number.
fn name_of(column: &Column) -> &str
    ensures { result.now ≡ name_of column.now }
{
    match column {
        Column::Named(name) => name.as_str(),
        Column::Number(_) => "",
    }
}
