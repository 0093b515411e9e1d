ghost use Rattle.std.specs.Prelude.{[], List};
ghost use Rattle.lot_page.specs.Cursor.{IsBehind, Refills, Steps};
ghost use Rattle.sqlite.specs.Held.{state};

use crate::paged::PagedRow;
use lot_table::Fault;
use sqlite::{Alter, Connection, Row};
use std::alloc::Global;
use std::marker::Model;

/// A place in a table: behind the rows that were given.
///
/// It borrows nothing. Between two steps the table must stay as it is.
#[derive(Drop)]
pub struct Cursor<R: PagedRow> {
    /// The last row of the page, once it is given.
    last: Option<R>,
    page: Vec<Row>,
    at: usize,
    alloc: Global,
}

impl<R: PagedRow> Model for Cursor<R> {
    ghost use Rattle.std.specs.Prelude.{drop, option_map};
    ghost use Rattle.lot_page.specs.Cursor.{Place};

    ghost Value = { Place };

    ghost view = { λ c. record {
      width = R.width;
      ahead = drop c.at c.page.items;
      last = option_map R.TableRow.encode c.last;
    } };
}

impl<R: PagedRow> Cursor<R> {
    /// Returns a cursor before the first row. It takes no memory.
    pub fn new(alloc: Global) -> Cursor<R>
        ensures start { (rows : List R) → IsBehind R.TableRow.encode [] rows result }
    {
        Cursor {
            last: None,
            page: Vec::new(alloc),
            at: 0,
            alloc,
        }
    }

    /// Returns the next row in the order of the key, or `None` past the last.
    ///
    /// It changes nothing in the book. After an error the cursor is behind the same rows. The error is `Damaged` where the next
    /// row is one that no book has.
    pub fn next<S: Alter>(&mut self, conn: &mut Connection<S>) -> Result<Option<R>, Fault>
        ensures steps { Steps R.TableRow.encode R.TableRow.IsGood R.PagedRow.rows self.old self.new
            (state S.Store conn.old) (state S.Store conn.new) result }
    {
        self.refill(conn)?;
        let Some(columns) = self.page.get(self.at) else {
            return Ok(None);
        };
        let row = R::read(self.alloc, columns)?;
        if self.at + 1 == self.page.len() {
            self.last = Some(R::read(self.alloc, columns)?);
        }
        self.at += 1;
        Ok(Some(row))
    }

    /// Reads the next page where no row is left of the last one.
    fn refill<S: Alter>(&mut self, conn: &mut Connection<S>) -> Result<(), Fault>
        ensures refills { Refills R.TableRow.encode R.PagedRow.rows self.old self.new
            (state S.Store conn.old) (state S.Store conn.new) result }
    {
        if self.at < self.page.len() {
            return Ok(());
        }
        self.page = R::page(self.alloc, conn, &self.last)?;
        self.at = 0;
        Ok(())
    }
}
