ghost use Rattle.std.specs.Prelude.{◌↔◌, IsTrue};
ghost use Rattle.lot_audit.specs.Checks.{Checks};
ghost use Rattle.lot_audit.specs.Told.{AmountsTold, AreTold, HeldHasRows, LegsWithin, NamesTold};
ghost use Rattle.lot_audit.specs.Whole.{AsksForAll};
ghost use Rattle.lot_audit.specs.Judge.{Agree};
ghost use Rattle.sqlite.specs.Held.{state};

use crate::agree::ToldRow;
use crate::has::have_rows;
use crate::pass::Replayed;
use crate::watch::{Spot, Table, Watch};
use lot_page::LegCursor;
use lot_rows::account::{self, AccountRow};
use lot_rows::allowed::{self, AllowedRow};
use lot_rows::commodity::{self, CommodityRow};
use lot_rows::head::{self, HeadRow};
use lot_rows::lot::{self, LotRow};
use lot_rows::opening::{self, OpeningRow};
use lot_rows::plain::{self, PlainRow};
use lot_rows::price::{self, PriceRow};
use lot_table::{Fault, select};
use lot_view::View;
use sqlite::{Alter, Connection};
use std::alloc::Global;

/// Returns whether the tables agree with what is known of their entries.
pub(crate) fn agree<S: Alter, W: Watch>(
    alloc: Global,
    conn: &mut Connection<S>,
    watch: &mut W,
    known: &Replayed,
) -> Result<bool, Fault>
    ensures checks { Checks (λ is tables. IsTrue is ↔ Agree known.now tables)
        (state S.Store conn.old) (state S.Store conn.new) result }
{
    if !names_agree(alloc, conn, watch, known)? {
        return Ok(false);
    }
    if !amounts_agree(alloc, conn, watch, known)? {
        return Ok(false);
    }
    let view = known.replay.view();
    if !held_has_rows(alloc, conn, watch, view)? {
        return Ok(false);
    }
    legs_are_within(alloc, conn, watch, view.entries())
}

fn names_agree<S: Alter, W: Watch>(
    alloc: Global,
    conn: &mut Connection<S>,
    watch: &mut W,
    known: &Replayed,
) -> Result<bool, Fault>
    ensures checks { Checks (λ is tables. IsTrue is ↔ NamesTold known.now.replay.view tables)
        (state S.Store conn.old) (state S.Store conn.new) result }
{
    watch.look(Spot::Table(Table::Account));
    if !are_told::<S, W, AccountRow>(alloc, conn, watch, known, account::LIST)? {
        return Ok(false);
    }
    watch.look(Spot::Table(Table::Allowed));
    if !are_told::<S, W, AllowedRow>(alloc, conn, watch, known, allowed::LIST)? {
        return Ok(false);
    }
    watch.look(Spot::Table(Table::Commodity));
    if !are_told::<S, W, CommodityRow>(alloc, conn, watch, known, commodity::LIST)? {
        return Ok(false);
    }
    watch.look(Spot::Table(Table::Head));
    are_told::<S, W, HeadRow>(alloc, conn, watch, known, head::LIST)
}

fn amounts_agree<S: Alter, W: Watch>(
    alloc: Global,
    conn: &mut Connection<S>,
    watch: &mut W,
    known: &Replayed,
) -> Result<bool, Fault>
    ensures checks { Checks
        (λ is tables. IsTrue is ↔ AmountsTold known.now.replay.view known.now.rates tables)
        (state S.Store conn.old) (state S.Store conn.new) result }
{
    watch.look(Spot::Table(Table::Price));
    if !are_told::<S, W, PriceRow>(alloc, conn, watch, known, price::LIST)? {
        return Ok(false);
    }
    watch.look(Spot::Table(Table::Lot));
    if !are_told::<S, W, LotRow>(alloc, conn, watch, known, lot::LIST)? {
        return Ok(false);
    }
    watch.look(Spot::Table(Table::Plain));
    if !are_told::<S, W, PlainRow>(alloc, conn, watch, known, plain::LIST)? {
        return Ok(false);
    }
    watch.look(Spot::Table(Table::Opening));
    are_told::<S, W, OpeningRow>(alloc, conn, watch, known, opening::LIST)
}

/// Returns whether each row of a table says what is known. The statement answers all rows of it.
fn are_told<S: Alter, W: Watch, R: ToldRow>(
    alloc: Global,
    conn: &mut Connection<S>,
    watch: &mut W,
    known: &Replayed,
    statement: &str,
) -> Result<bool, Fault>
    requires { AsksForAll R.TableRow.encode R.TableRow.IsGood R.ToldRow.rows statement.now }
    ensures checks { Checks (λ is tables. IsTrue is
        ↔ AreTold R.TableRow.encode R.TableRow.IsGood (R.ToldRow.Tells known.now)
        (R.ToldRow.rows tables))
        (state S.Store conn.old) (state S.Store conn.new) result }
{
    let rows: Vec<R> = select(alloc, conn, statement, &[])?;
    'rows: for row in rows {
        watch.row();
        if !row.agrees(known) {
            return Ok(false);
        }
    }
    Ok(true)
}

fn held_has_rows<S: Alter, W: Watch>(
    alloc: Global,
    conn: &mut Connection<S>,
    watch: &mut W,
    view: &View,
) -> Result<bool, Fault>
    ensures checks { Checks (λ is tables. IsTrue is ↔ HeldHasRows view.now tables)
        (state S.Store conn.old) (state S.Store conn.new) result }
{
    watch.look(Spot::Held);
    let holdings = view.holdings()?;
    have_rows(alloc, conn, &holdings)
}

/// Returns whether each row of the table `leg` is of one of so many entries.
fn legs_are_within<S: Alter, W: Watch>(
    alloc: Global,
    conn: &mut Connection<S>,
    watch: &mut W,
    entries: u32,
) -> Result<bool, Fault>
    ensures checks { Checks (λ is tables. IsTrue is ↔ LegsWithin entries tables)
        (state S.Store conn.old) (state S.Store conn.new) result }
{
    watch.look(Spot::End(Table::Leg));
    let mut legs = LegCursor::new(alloc);
    'legs: for _ in 0..u64::MAX {
        let Some(row) = legs.next(conn)? else {
            return Ok(true);
        };
        if row.entry.number() > entries {
            return Ok(false);
        }
    }
    Err(Fault::Memory)
}
