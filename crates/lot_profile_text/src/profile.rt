//! The profile that a TOML document says.
ghost use Rattle.std.specs.Prelude.{IfOk};
ghost use Rattle.lot_profile_text.specs.Needs.{AllHaveNeeds};
ghost use Rattle.lot_profile_text.specs.Profiles.{profile_of, profile_of_one_table, profile_of_tables};
ghost use Rattle.lot_profile_text.specs.Reading.{Gives};
ghost use Rattle.toml.specs.View.{view};

use crate::complete::{Shape, complete};
use crate::fault::ProfileFault;
use crate::file::FileOfOneTable;
use crate::keys::{
    ACCOUNTS_OF_FILE, BASIS_SECTION, COLUMNS_OF_FILE, FILE_SECTION, NAME, SYMBOLS, TABLES_OF_FILE,
};
use crate::kind::kinds;
use crate::list::{Keyed, Listed, some};
use crate::part::entry;
use crate::section::{one_table_section, tables_section};
use lot_command::Items;
use lot_profile::{AccountOf, Profile, Sources, Symbol, Table};
use std::alloc::Global;
use toml::Value;

/// Returns the profile that a document says, or the first fault.
pub(crate) fn profile(alloc: Global, document: &Value) -> Result<Profile, ProfileFault>
    ensures said { Gives result (profile_of (view document.now)) }
    ensures needs { IfOk result AllHaveNeeds }
{
    if document.get(TABLES_OF_FILE.key).is_some() {
        complete(alloc, Shape::Tables, profile_of_tables(alloc, document)?)
    } else {
        complete(
            alloc,
            Shape::OneTable,
            profile_of_one_table(alloc, document)?,
        )
    }
}

/// Returns the profile of a file of several tables, or the first fault.
#[tactic(auto, unfolding(crate::specs::Profiles::profile_of_tables))]
fn profile_of_tables(alloc: Global, document: &Value) -> Result<Profile, ProfileFault>
    ensures { Gives result (profile_of_tables (view document.now)) }
{
    tables_section(alloc, "", document)?;
    let name = entry(alloc, "", document, &NAME)?;
    let file = entry(alloc, "", document, &FILE_SECTION)?;
    let accounts: Keyed<AccountOf> = entry(alloc, "", document, &ACCOUNTS_OF_FILE)?;
    let basis = entry(alloc, "", document, &BASIS_SECTION)?;
    let symbols: Keyed<Symbol> = entry(alloc, "", document, &SYMBOLS)?;
    let listed: Listed<Table> = entry(alloc, "", document, &TABLES_OF_FILE)?;
    let tables = some(alloc, TABLES_OF_FILE.key, listed.into_items())?;
    Ok(Profile {
        name,
        file,
        tables,
        accounts: accounts.into_members(),
        basis,
        symbols: symbols.into_members(),
    })
}

/// Returns the profile of a file of one table, or the first fault.
#[tactic(auto, unfolding(crate::specs::Profiles::profile_of_one_table))]
fn profile_of_one_table(alloc: Global, document: &Value) -> Result<Profile, ProfileFault>
    ensures { Gives result (profile_of_one_table (view document.now)) }
{
    one_table_section(alloc, "", document)?;
    let name = entry(alloc, "", document, &NAME)?;
    let form: FileOfOneTable = entry(alloc, "", document, &FILE_SECTION)?;
    let columns: Keyed<Sources> = entry(alloc, "", document, &COLUMNS_OF_FILE)?;
    let accounts: Keyed<AccountOf> = entry(alloc, "", document, &ACCOUNTS_OF_FILE)?;
    let basis = entry(alloc, "", document, &BASIS_SECTION)?;
    let symbols: Keyed<Symbol> = entry(alloc, "", document, &SYMBOLS)?;
    let kinds = kinds(alloc, "", document)?;
    let (file, table) = form.with_table(alloc, columns.into_members(), kinds);
    let mut tables = Items::new(alloc);
    tables.push(table)?;
    Ok(Profile {
        name,
        file,
        tables,
        accounts: accounts.into_members(),
        basis,
        symbols: symbols.into_members(),
    })
}
