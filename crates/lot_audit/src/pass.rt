ghost use Rattle.lot_rows.specs.Tables.{Tables};
ghost use Rattle.lot_audit.specs.Checks.{ChecksWhere};
ghost use Rattle.lot_audit.specs.Pass.{HasJudged, HasJudgedAll, HasRead, HasReadAll, SaysPlace};
ghost use Rattle.sqlite.specs.Held.{state};

use crate::entry::entry_said;
use crate::has::{has_rows, is_first_under};
use crate::legs::legs_agree;
use crate::rates::Rates;
use crate::replay::Replay;
use crate::rows::legs_of;
use crate::sales::sales_follow;
use crate::watch::{Spot, Table, Watch};
use lot_page::{EntryCursor, SaleCursor};
use lot_rows::entry::EntryRow;
use lot_table::Fault;
use sqlite::{Alter, Connection};
use std::alloc::Global;

/// What is known of the entries that are judged again.
#[derive(Drop)]
pub(crate) struct Replayed {
    pub(crate) replay: Replay,
    pub(crate) rates: Rates,
}

/// A pass over the entries: what is known so far, and the places in the tables `entry` and `sale`.
#[derive(Drop)]
struct Pass {
    known: Replayed,
    entries: EntryCursor,
    sales: SaleCursor,
}

impl Pass {
    /// Returns the pass before the first entry. It takes no memory.
    fn new(alloc: Global, place: u32) -> Pass
        ensures begins { (tables : Tables) → SaysPlace place tables → HasJudged result tables }
    {
        Pass {
            known: Replayed {
                replay: Replay::new(alloc, place),
                rates: Rates::new(alloc),
            },
            entries: EntryCursor::new(alloc),
            sales: SaleCursor::new(alloc),
        }
    }
}

/// Judges all entries again, of a book with that place of migration. Returns what is known of them.
///
/// `Damaged` is returned where the tables stand for no book, and `Memory` also where there are more
/// entries than a `u64` counts.
pub(crate) fn judge_all<S: Alter, W: Watch>(
    alloc: Global,
    conn: &mut Connection<S>,
    watch: &mut W,
    place: u32,
) -> Result<Replayed, Fault>
    ensures judges { ChecksWhere (SaysPlace place) HasJudgedAll
        (state S.Store conn.old) (state S.Store conn.new) result }
{
    let mut pass = Pass::new(alloc, place);
    'entries: for _ in 0..u64::MAX {
        watch.look(Spot::Table(Table::Entry));
        let Some(row) = pass.entries.next(conn)? else {
            watch.look(Spot::End(Table::Sale));
            return end(conn, pass);
        };
        pass = judge_row(alloc, conn, watch, pass, row)?;
    }
    Err(Fault::Memory)
}

/// Returns what is known where no entry is left, and no sale.
fn end<S: Alter>(conn: &mut Connection<S>, pass: Pass) -> Result<Replayed, Fault>
    ensures ends { ChecksWhere (HasReadAll pass) HasJudgedAll
        (state S.Store conn.old) (state S.Store conn.new) result }
{
    let Pass {
        known,
        entries: _,
        mut sales,
    } = pass;
    match sales.next(conn)? {
        None => Ok(known),
        Some(_) => Err(Fault::Damaged),
    }
}

/// Judges the entry of a row that is read.
fn judge_row<S: Alter, W: Watch>(
    alloc: Global,
    conn: &mut Connection<S>,
    watch: &mut W,
    pass: Pass,
    row: EntryRow,
) -> Result<Pass, Fault>
    ensures judges { ChecksWhere (HasRead pass row) HasJudged
        (state S.Store conn.old) (state S.Store conn.new) result }
{
    let Pass {
        known,
        entries,
        mut sales,
    } = pass;
    let Replayed { replay, mut rates } = known;
    let number = row.number;
    let entry = number.number();
    watch.look(Spot::Entry(entry));
    let Some(said) = entry_said(alloc, replay.view().entries(), row)? else {
        return Err(Fault::Damaged);
    };
    if !is_first_under(alloc, conn, &said.key, number)? {
        return Err(Fault::Damaged);
    }
    let Some((replay, change)) = replay.judge(alloc, &said.command)? else {
        return Err(Fault::Damaged);
    };
    watch.look(Spot::RowsOf {
        table: Table::Leg,
        entry,
    });
    if !legs_agree(&legs_of(alloc, conn, number)?, change.legs.as_slice()) {
        return Err(Fault::Damaged);
    }
    watch.look(Spot::RowsOfCommand(entry));
    if !has_rows(alloc, conn, &said.command)? {
        return Err(Fault::Damaged);
    }
    watch.look(Spot::RowsOf {
        table: Table::Sale,
        entry,
    });
    if !sales_follow(conn, &mut sales, number, change.sales.as_slice())? {
        return Err(Fault::Damaged);
    }
    rates.quote(&said.command)?;
    Ok(Pass {
        known: Replayed { replay, rates },
        entries,
        sales,
    })
}
