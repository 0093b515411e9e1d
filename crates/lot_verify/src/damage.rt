ghost use Rattle.std.specs.Prelude.{IfSome};
ghost use Rattle.lot_table.specs.Statement.{IsSelect};
ghost use Rattle.lot_walk.specs.Step.{StaysOrGoesBack};
ghost use Rattle.sqlite.specs.Held.{state};
ghost use Rattle.sqlite.specs.State.{HasCleanDisk, Survives};

use lot_audit::{Spot, Table, Watch, judge_book};
use lot_rows::{account, allowed, commodity, head, lot, opening, plain, price};
use lot_table::{Fault, Queryable};
use sqlite::types::ValueRef;
use sqlite::{Alter, Connection};

/// What was looked at last.
#[derive(Drop)]
struct LastLook {
    spot: Option<Spot>,
    /// How many of its rows were looked at.
    rows: i64,
}

impl Watch for LastLook {
    fn look(&mut self, spot: Spot) {
        self.spot = Some(spot);
        self.rows = 0;
    }

    fn row(&mut self) {
        self.rows = self.rows.saturating_add(1);
    }
}

/// Says on standard error where the book of that path is damaged, with a connection to it. The book
/// is judged once more, and what is looked at then is followed. It is only read.
pub fn say_where<S: Alter>(rt: &HostRuntime, path: &str, conn: &mut Connection<S>)
    ensures left { HasCleanDisk (state S.Store conn.new)
        → StaysOrGoesBack (state S.Store conn.old) (state S.Store conn.new) }
    ensures crash { Survives (state S.Store conn.old) (state S.Store conn.new) (λ _. ⊥) }
{
    let mut last = LastLook {
        spot: None,
        rows: 0,
    };
    let Err(Fault::Damaged) = judge_book(rt.alloc(), conn, &mut last) else {
        return;
    };
    let Some(spot) = last.spot else {
        return;
    };
    let _ = match spot {
        Spot::Entry(entry) => eprintln!(rt;
            "lotbook: {path}: entry {entry}: the row isn't the canonical text of a command that is accepted there, under a key of its own"
        ),
        Spot::RowsOf { table, entry } => eprintln!(rt;
            "lotbook: {path}: table {}: the rows of entry {entry} aren't those that the entry makes",
            name_of(table)
        ),
        Spot::RowsOfCommand(entry) => eprintln!(rt;
            "lotbook: {path}: a row that entry {entry} makes isn't there: of an account, its currencies, a commodity, a price or a latest day at cost"
        ),
        Spot::Held => eprintln!(rt;
            "lotbook: {path}: a row of what is held isn't there, in table lot, opening or plain"
        ),
        Spot::End(table) => eprintln!(rt;
            "lotbook: {path}: table {} has rows that no entry makes",
            name_of(table)
        ),
        Spot::Table(table) => match key_of(conn, table, last.rows) {
            Some(key) => eprintln!(rt;
                "lotbook: {path}: table {}: the row of {key} isn't what the entries come to",
                name_of(table)
            ),
            None => eprintln!(rt;
                "lotbook: {path}: table {} has a row that no book has",
                name_of(table)
            ),
        },
    };
}

/// Returns the key of the row at that place in a table, counted from 1, where it can be read.
fn key_of<S: Alter>(conn: &mut Connection<S>, table: Table, place: i64) -> Option<String>
    ensures left { HasCleanDisk (state S.Store conn.new)
        → StaysOrGoesBack (state S.Store conn.old) (state S.Store conn.new) }
    ensures crash { Survives (state S.Store conn.old) (state S.Store conn.new) (λ _. ⊥) }
{
    if place < 1 {
        return None;
    }
    let Some(query) = query_of(table) else {
        return None;
    };
    match conn.ask(query, &[ValueRef::Int(place - 1)]) {
        Ok(rows) => rows.first()?.get(0).ok(),
        Err(_) => None,
    }
}

/// Returns the query for the key of the row at a place in a table whose rows are looked at.
fn query_of(table: Table) -> Option<&'static str>
    ensures { IfSome result (λ query. IsSelect query.now) }
{
    match table {
        Table::Account => Some(account::SHOW),
        Table::Allowed => Some(allowed::SHOW),
        Table::Commodity => Some(commodity::SHOW),
        Table::Price => Some(price::SHOW),
        Table::Lot => Some(lot::SHOW),
        Table::Plain => Some(plain::SHOW),
        Table::Head => Some(head::SHOW),
        Table::Opening => Some(opening::SHOW),
        Table::Entry | Table::Leg | Table::Sale | Table::Migration => None,
    }
}

/// Returns the name of a table.
fn name_of(table: Table) -> &'static str {
    match table {
        Table::Account => "account",
        Table::Allowed => "allowed",
        Table::Commodity => "commodity",
        Table::Price => "price",
        Table::Entry => "entry",
        Table::Leg => "leg",
        Table::Sale => "sale",
        Table::Lot => "lot",
        Table::Plain => "plain",
        Table::Head => "head",
        Table::Opening => "opening",
        Table::Migration => "migration",
    }
}
