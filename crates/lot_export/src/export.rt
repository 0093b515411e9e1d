//! The commands of an export.
ghost use Rattle.std.specs.Prelude.{◌≡◌, IfOk, IfErr, length};
ghost use Rattle.lot_export.specs.Cancels.{ArePartners};
ghost use Rattle.lot_export.specs.Entries.{AreNumbered};
ghost use Rattle.lot_export.specs.Export.{FailsOn, HasFault, IsExport, IsExportOf};
ghost use Rattle.lot_export.specs.HandedIn.{HaveNext};
ghost use Rattle.lot_export.specs.Lines.{AreJudged, IsOrderFault, orders_of};

use crate::cancel::trades;
use crate::entry::{Entry, entries, rounded, skipped};
use crate::fault::ExportFault;
use crate::handed_in::{Given, Sheet, handed_in};
use crate::line::{lines, orders};
use crate::named::{Named, by_hand, with_names};
use lot_base::Label;
use lot_command::Items;
use lot_profile::{Profile, Table};
use lot_sequence::{first_against, keys, sort_rows, taken_back};
use lot_sheet::read_sheet;
use std::alloc::{AllocError, Global};

/// What a broker's export comes to by a profile.
#[derive(Drop)]
pub struct Export {
    /// The commands of its rows in the order of judging, each under its key, and with the number of its row.
    pub given: Given,
    /// The rows that are posted by hand, in that order.
    pub by_hand: Items<Named>,
    /// How many rows are passed over by a rule.
    pub skipped: usize,
    /// How many amounts and prices of rows were rounded to eight decimals as they were read, at most `usize::MAX`.
    pub rounded: usize,
}

/// Is told what an export comes to.
pub trait Aside {
    /// Before its commands are run: that is what it comes to, and which of its rows give no command.
    fn set_aside(&mut self, export: &Export);
}

/// Returns what the bytes of a broker's export come to by a profile, without the rows whose names are among `except`. Commands have
/// keys of that source (docs/FORMATS.md, Profiles). The errors are those of `ExportFault`, in its order.
pub fn read_export(
    alloc: Global,
    source: &Label,
    profile: &Profile,
    except: &[Label],
    bytes: &[u8],
) -> Result<Export, ExportFault>
    ensures ok { IfOk result (IsExport source.now profile.now except.now bytes.now) }
    ensures as_many { IfOk result (λ export.
        length export.given.numbers.items ≡ length export.given.commands.items) }
    ensures next { IfOk result (λ export. HaveNext export.given.numbers.items) }
    ensures fault { IfErr result (HasFault profile.now except.now bytes.now) }
{
    let rows = match read_sheet(alloc, &profile.file, &profile.tables, bytes) {
        Ok(rows) => rows,
        Err(fault) => return Err(ExportFault::from(fault)),
    };
    let entries = match entries(alloc, profile, &rows) {
        Ok(entries) => entries,
        Err(fault) => return Err(fault),
    };
    export_of(alloc, source, profile, except, entries.as_slice())
}

/// Returns what rows come to, of which it is known what each says.
fn export_of(
    alloc: Global,
    source: &Label,
    profile: &Profile,
    except: &[Label],
    entries: &[Entry],
) -> Result<Export, ExportFault>
    requires numbered { AreNumbered entries.now }
    ensures ok { IfOk result (IsExportOf source.now profile.now except.now entries.now) }
    ensures as_many { IfOk result (λ export.
        length export.given.numbers.items ≡ length export.given.commands.items) }
    ensures next { IfOk result (λ export. HaveNext export.given.numbers.items) }
    ensures fault { IfErr result (FailsOn profile.now except.now entries.now) }
{
    let rows = judged(alloc, profile.tables.as_slice(), entries)?;
    let partners = partners(alloc, entries, rows.as_slice())?;
    let sheet = Sheet {
        entries,
        rows: rows.as_slice(),
        partners: &partners,
        except,
    };
    Ok(Export {
        given: handed_in(alloc, source, &sheet)?,
        by_hand: by_hand(alloc, entries, except, rows.as_slice())?,
        skipped: skipped(entries),
        rounded: rounded(entries),
    })
}

/// Returns the rows that have a day, in the order of judging, each with the name of its key.
pub(crate) fn judged(
    alloc: Global,
    tables: &[Table],
    entries: &[Entry],
) -> Result<Items<Named>, ExportFault>
    ensures ok { IfOk result (AreJudged (orders_of tables.now) entries.now) }
    ensures fault { IfErr result (IsOrderFault (orders_of tables.now) entries.now) }
{
    let orders = orders(alloc, tables)?;
    let mut lines = lines(alloc, entries)?;
    if let Some(row) = first_against(&lines, &orders) {
        return Err(ExportFault::Order { row });
    }
    sort_rows(&mut lines, &orders);
    let names = keys(alloc, &lines)?;
    Ok(with_names(alloc, &lines, &names)?)
}

/// Returns which purchase each row takes back, by its place among these. The only error is out of memory.
fn partners(
    alloc: Global,
    entries: &[Entry],
    rows: &[Named],
) -> Result<Vec<Option<usize>>, AllocError>
    ensures { IfOk result (λ partners. ArePartners entries.now rows.now partners.items) }
{
    let trades = trades(alloc, entries, rows)?;
    taken_back(alloc, &trades)
}
