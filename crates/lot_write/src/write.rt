ghost use Rattle.std.specs.Prelude.{◌≡◌, IsTrue};
ghost use Rattle.lot_write.specs.Call.{WritesAll, WritesOne};
ghost use Rattle.sqlite.specs.Held.{state};
ghost use Rattle.sqlite.specs.State.{HasCleanDisk};

use lot_base::{Account, Commodity};
use lot_cost::LotKey;
use lot_rows::account::AccountRow;
use lot_rows::allowed::AllowedRow;
use lot_rows::commodity::CommodityRow;
use lot_rows::entry::EntryRow;
use lot_rows::head::HeadRow;
use lot_rows::leg::LegRow;
use lot_rows::lot::LotRow;
use lot_rows::opening::OpeningRow;
use lot_rows::plain::PlainRow;
use lot_rows::price::PriceRow;
use lot_rows::sale::SaleRow;
use lot_rows::{account, allowed, commodity, entry, head, leg, lot, opening, plain, price, sale};
use lot_table::Fault;
use sqlite::{Alter, Transaction};

/// A row that is written or deleted. It is put in place of the row of its key, if there is one; the row of an entry, a leg or a
/// sale is new.
#[derive(Drop)]
pub enum Write {
    Account(AccountRow),
    Allowed(AllowedRow),
    Commodity(CommodityRow),
    Price(PriceRow),
    Entry(EntryRow),
    Leg(LegRow),
    Sale(SaleRow),
    Lot(LotRow),
    /// The units of the row of its key change; the row is there.
    SetLot(LotRow),
    /// The row of a lot goes, if there is one.
    NoLot(Account, Commodity, LotKey),
    Opening(OpeningRow),
    /// The row of a lot's opening number goes, if there is one.
    NoOpening(Account, Commodity, LotKey),
    Plain(PlainRow),
    /// The units of the row of its key change; the row is there.
    SetPlain(PlainRow),
    /// The row of the plain units goes, if there is one.
    NoPlain(Account, Commodity),
    Head(HeadRow),
    /// The day of the row of its key changes; the row is there.
    SetHead(HeadRow),
}

/// Writes all, one after another, in the open transaction.
///
/// After an error the last commit stands, and the caller drops the transaction, which rolls back what was written.
pub fn write_all<S: Alter>(tx: &mut Transaction<'_, S>, writes: &[Write]) -> Result<(), Fault>
    requires { HasCleanDisk (state S.Store tx.old.conn.now)
        → IsTrue (state S.Store tx.old.conn.now).in_transaction }
    ensures same_reference { tx.new.conn.ghost_name ≡ tx.old.conn.ghost_name }
    ensures writes { WritesAll writes.now (state S.Store tx.old.conn.now)
        (state S.Store tx.new.conn.now) result }
{
    'each: for write in writes {
        write_one(tx, write)?;
    }
    Ok(())
}

/// Puts the row, changes the one of its key, or deletes it.
fn write_one<S: Alter>(tx: &mut Transaction<'_, S>, write: &Write) -> Result<(), Fault>
    requires { HasCleanDisk (state S.Store tx.old.conn.now)
        → IsTrue (state S.Store tx.old.conn.now).in_transaction }
    ensures same_reference { tx.new.conn.ghost_name ≡ tx.old.conn.ghost_name }
    ensures writes { WritesOne write.now (state S.Store tx.old.conn.now)
        (state S.Store tx.new.conn.now) result }
{
    match write {
        Write::Account(row) => account::put(tx, row),
        Write::Allowed(row) => allowed::put(tx, row),
        Write::Commodity(row) => commodity::put(tx, row),
        Write::Price(row) => price::put(tx, row),
        Write::Entry(row) => entry::add(tx, row),
        Write::Leg(row) => leg::add(tx, row),
        Write::Sale(row) => sale::add(tx, row),
        Write::Lot(row) => lot::put(tx, row),
        Write::SetLot(row) => lot::set(tx, row),
        Write::NoLot(account, commodity, lot) => lot::delete(tx, account, commodity, lot),
        Write::Opening(row) => opening::put(tx, row),
        Write::NoOpening(account, commodity, lot) => opening::delete(tx, account, commodity, lot),
        Write::Plain(row) => plain::put(tx, row),
        Write::SetPlain(row) => plain::set(tx, row),
        Write::NoPlain(account, commodity) => plain::delete(tx, account, commodity),
        Write::Head(row) => head::put(tx, row),
        Write::SetHead(row) => head::set(tx, row),
    }
}
