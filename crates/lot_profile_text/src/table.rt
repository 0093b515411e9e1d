//! A table of several.
ghost use Rattle.lot_profile_text.specs.Kinds.{table_of};

use crate::fault::ProfileFault;
use crate::keys::{COLUMNS, HEADER, ORDER, ROWS, TURN};
use crate::kind::kinds;
use crate::list::{Keyed, Listed};
use crate::part::{Part, entry};
use crate::section::table_section;
use lot_profile::{Condition, Role, Sources, Table};
use std::alloc::Global;
use toml::Value;

impl Part for Table {
    ghost said = { table_of };

    fn read(alloc: Global, place: &str, value: &Value) -> Result<Table, ProfileFault> {
        table_section(alloc, place, value)?;
        let header = entry(alloc, place, value, &HEADER)?;
        let rows: Keyed<Condition> = entry(alloc, place, value, &ROWS)?;
        let order = entry(alloc, place, value, &ORDER)?;
        let columns: Keyed<Sources> = entry(alloc, place, value, &COLUMNS)?;
        let turn: Listed<Role> = entry(alloc, place, value, &TURN)?;
        let kinds = kinds(alloc, place, value)?;
        Ok(Table {
            header,
            rows: rows.into_members(),
            order,
            columns: columns.into_members(),
            turn: turn.into_items(),
            kinds,
        })
    }
}
