//! The names of the keys of an export's rows.
ghost use Rattle.std.specs.Prelude.{[], IfErr, IfOk};
ghost use Rattle.lot_export.specs.Export.{HasFault};
ghost use Rattle.lot_export.specs.Names.{AreNamed};

use crate::entry::entries;
use crate::export::judged;
use crate::fault::ExportFault;
use crate::named::Named;
use lot_command::Items;
use lot_profile::Profile;
use lot_sheet::read_sheet;
use std::alloc::Global;

/// Returns the rows of a broker's export that have a day, in the order of judging, each with the name of its key (docs/FORMATS.md,
/// Profiles): also those that an import leaves out. The error is a fault of the file.
pub fn named_rows(
    alloc: Global,
    profile: &Profile,
    bytes: &[u8],
) -> Result<Items<Named>, ExportFault>
    ensures ok { IfOk result (AreNamed profile.now bytes.now) }
    ensures fault { IfErr result (HasFault profile.now [] bytes.now) }
{
    let rows = match read_sheet(alloc, &profile.file, &profile.tables, bytes) {
        Ok(rows) => rows,
        Err(fault) => return Err(ExportFault::from(fault)),
    };
    let entries = match entries(alloc, profile, &rows) {
        Ok(entries) => entries,
        Err(fault) => return Err(fault),
    };
    judged(alloc, profile.tables.as_slice(), entries.as_slice())
}
