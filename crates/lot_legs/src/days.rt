ghost use Rattle.std.specs.Prelude.{◌≡◌, ◌≢◌, [], IfErr, IfOk, List, MatchOption, None, Some, option_copied};
ghost use Rattle.lot_command.specs.Canonical.{canonical};
ghost use Rattle.lot_command.specs.Sayable.{IsSayable};
ghost use Rattle.lot_command.specs.declared.command.Command.{Command as CommandOf};
ghost use Rattle.lot_legs.specs.Days.{FindsDay, IsAt, IsKnown, LooksUp, day_in, known_day, last_text};
ghost use Rattle.lot_page.specs.Cursor.{IsBehind};
ghost use Rattle.lot_rows.specs.Entry.{entry_cells};
ghost use Rattle.lot_rows.specs.declared.entry.EntryRow.{EntryRow as EntryRowOf};
ghost use Rattle.sqlite.specs.Held.{state};

use crate::front::day_at_front;
use lot_base::Day;
use lot_page::EntryCursor;
use lot_rows::entry::EntryRow;
use lot_table::{AnyText, Fault};
use sqlite::{Alter, Connection};
use std::alloc::Global;

/// The day of an entry, and its text.
#[derive(Drop)]
struct EntryDay {
    /// The number of the entry, from 1.
    entry: u32,
    day: Day,
    text: AnyText,
}

/// The days of entries, which are looked up in the order of their numbers: the rows of the table `entry` are read once.
#[derive(Drop)]
pub(crate) struct EntryDays {
    cursor: EntryCursor,
    /// The entry that was looked up last: no row behind its own is read.
    last: Option<EntryDay>,
}

impl EntryDays {
    /// Returns the days before the first entry. It takes no memory.
    pub(crate) fn new(alloc: Global) -> EntryDays
        ensures last { result.last ≡ None }
        ensures start { (rows : List EntryRowOf) → IsBehind entry_cells [] rows result.cursor }
    {
        EntryDays {
            cursor: EntryCursor::new(alloc),
            last: None,
        }
    }

    /// Returns the day of the entry of a number that isn't below the one that was looked up last.
    ///
    /// The error is `Damaged` where no row that is left has the number, or where the text of that row begins with no day.
    /// `Memory` is returned also where more rows are passed over than a `u64` counts.
    pub(crate) fn day_of<S: Alter>(
        &mut self,
        conn: &mut Connection<S>,
        entry: u32,
    ) -> Result<Day, Fault>
        ensures finds { FindsDay entry self.old self.new (state S.Store conn.old)
            (state S.Store conn.new) result }
    {
        match self.known(entry) {
            Some(day) => Ok(day),
            None => self.look_up(conn, entry),
        }
    }

    /// Returns the text of the entry that was looked up last, if there is one.
    pub(crate) fn text(&self) -> Option<&str>
        ensures { option_copied result ≡ last_text self.now.last }
    {
        match &self.last {
            Some(last) => Some(last.text.as_str()),
            None => None,
        }
    }

    /// Returns the day of the entry, where it was looked up last.
    fn known(&self, entry: u32) -> Option<Day>
        ensures { MatchOption result (¬ IsAt self.now.last entry)
            (IsKnown self.now.last entry) }
    {
        let Some(last) = &self.last else {
            return None;
        };
        if last.entry == entry {
            Some(last.day)
        } else {
            None
        }
    }

    /// Reads the rows of entries up to the one of the number, and returns its day.
    fn look_up<S: Alter>(&mut self, conn: &mut Connection<S>, entry: u32) -> Result<Day, Fault>
        ensures looks { LooksUp entry self.old self.new (state S.Store conn.old)
            (state S.Store conn.new) result }
    {
        'rows: for _ in 0..u64::MAX {
            let Some(row) = self.cursor.next(conn)? else {
                return Err(Fault::Damaged);
            };
            let number = row.number.number();
            if number == entry {
                return self.stop_at(entry, row);
            }
        }
        Err(Fault::Memory)
    }

    /// Notes the day and the text of the entry, whose row this is.
    ///
    /// The error is `Damaged`, where the text of the row begins with no day.
    fn stop_at(&mut self, entry: u32, row: EntryRow) -> Result<Day, Fault>
        ensures cursor { self.new.cursor ≡ self.old.cursor }
        ensures day { IfOk result (λ day. day_in row.body ≡ Some day) }
        ensures last { IfOk result (λ day. self.new.last ≡ Some (known_day entry day row.body)) }
        ensures damaged { IfErr result (λ fault. (fault ≡ Fault.Damaged)
            × ((command : CommandOf) → IsSayable command → row.body ≢ canonical command)) }
    {
        let EntryRow { body: text, .. } = row;
        match day_at_front(text.as_str()) {
            Some(day) => {
                self.last = Some(EntryDay { entry, day, text });
                Ok(day)
            }
            None => Err(Fault::Damaged),
        }
    }
}
