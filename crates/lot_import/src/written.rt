ghost use Rattle.std.specs.Prelude.{◌≡◌, IfOk, IfErr, IfSome, IsTrue, MatchResult};
ghost use Rattle.csv.specs.Records.{fields_of};
ghost use Rattle.lot_base.specs.Name.{is_commodity, is_label};
ghost use Rattle.lot_import.specs.Row.{HasLot, IsFaulty, IsRow};
ghost use Rattle.lot_import.specs.Column.{GivesLot, row_of};

use crate::column::{action, commodity, day, fee, field, label, lot, rate, units};
use crate::fault::{Cause, RowsFault};
use crate::row::{Action, Row};
use crate::version::Version;
use csv::ByteRecord;
use lot_base::{Day, Grammar, Name};
use lot_num::{Rate, Units};
use std::alloc::Global;

/// The row that a record says. Its names are borrowed from the record.
#[derive(Drop)]
pub(crate) struct SaidRow<'a> {
    name: &'a str,
    day: Day,
    action: Action,
    symbol: &'a str,
    units: Units,
    price: Rate,
    currency: &'a str,
    fee: Rate,
    lot: Option<&'a str>,
}

/// Returns the row that a record of a file of this version says, or its first faulty column.
pub(crate) fn said(version: Version, written: &ByteRecord) -> Result<SaidRow<'_>, Cause>
    ensures { MatchResult result (λ said. IsRow version (fields_of written.now) (row_of said))
        (λ cause. IsFaulty version (fields_of written.now) cause) }
{
    if written.len() != version.columns() {
        return Err(Cause::Length);
    }
    let name = label(field(written, 0), Cause::Ref)?;
    let day = day(field(written, 1), Cause::Date)?;
    let action = action(field(written, 2), Cause::Action)?;
    let symbol = commodity(field(written, 3), Cause::Symbol)?;
    let units = units(field(written, 4), Cause::Units)?;
    let price = rate(field(written, 5), Cause::Price)?;
    let currency = commodity(field(written, 6), Cause::Currency)?;
    let fee = fee(field(written, 7), Cause::Fee)?;
    let lot = lot_in(version, action, written)?;
    Ok(SaidRow {
        name,
        day,
        action,
        symbol,
        units,
        price,
        currency,
        fee,
        lot,
    })
}

/// Returns the label of the lot that a record says beside its action. The first version has none.
pub(crate) fn lot_in(
    version: Version,
    deal: Action,
    written: &ByteRecord,
) -> Result<Option<&str>, Cause>
    ensures { GivesLot (HasLot version deal (fields_of written.now)) Cause.Lot result }
{
    match version {
        Version::First => Ok(None),
        Version::Second => lot(deal, field(written, 0), field(written, 8), Cause::Lot),
    }
}

impl SaidRow<'_> {
    /// Returns the row with names of its own. The only error is out of memory.
    pub(crate) fn kept(&self, alloc: Global) -> Result<Row, RowsFault>
        requires name { IsTrue (is_label (row_of self.now).name) }
        requires symbol { IsTrue (is_commodity (row_of self.now).symbol) }
        requires currency { IsTrue (is_commodity (row_of self.now).currency) }
        requires lot { IfSome (row_of self.now).lot (λ label. IsTrue (is_label label)) }
        ensures ok { IfOk result (λ row. row ≡ row_of self.now) }
        ensures memory { IfErr result (λ fault. fault ≡ RowsFault.Memory) }
    {
        Ok(Row {
            name: kept(alloc, self.name)?,
            day: self.day,
            action: self.action,
            symbol: kept(alloc, self.symbol)?,
            units: self.units,
            price: self.price,
            currency: kept(alloc, self.currency)?,
            fee: self.fee,
            lot: match self.lot {
                Some(label) => Some(kept(alloc, label)?),
                None => None,
            },
        })
    }
}

/// Returns the name that a text of its grammar is. The only error is out of memory.
fn kept<G: Grammar>(alloc: Global, text: &str) -> Result<Name<G>, RowsFault>
    requires { IsTrue (G.is_name text.now) }
    ensures ok { IfOk result (λ name. name ≡ text.now) }
    ensures memory { IfErr result (λ fault. fault ≡ RowsFault.Memory) }
{
    match Name::new(alloc, text) {
        Ok(name) => Ok(name),
        Err(_) => Err(RowsFault::Memory),
    }
}
