ghost use Rattle.std.specs.Prelude.{List, [], ◌≡◌};
ghost use Rattle.lot_book.specs.Facts.{Entry};
ghost use Rattle.lot_noted.specs.declared.key.LegKey.{LegKey as LegKeyOf};
ghost use Rattle.lot_recall.specs.Place.{AreAt, AreRowsAt, HaveLegs, IsAnyNoted, IsBehindRecalled, IsBehindRecalledRows, shown_noted};
ghost use Rattle.lot_register.specs.declared.leg.NotedLeg.{NotedLeg as NotedLegOf};
ghost use Rattle.lot_rows.specs.Tables.{Tables};
ghost use Rattle.lot_stored.specs.StandFor.{StandFor};
ghost use Rattle.lot_walk.specs.Step.{IsPrefix};

use crate::legs::FewLegs;
use crate::notes::EntryNotes;
use crate::said::LastNote;
use lot_noted::LegKey;
use lot_print::laws::canonical_texts_tell_commands_apart;
use lot_register::NotedLeg;
use lot_table::Fault;
use lot_walk::Place;
use sqlite::{Alter, Connection};
use std::alloc::Global;

/// The place of a walk over the legs of a book at keys, in the order of the keys, each with the
/// narration of its entry.
#[derive(Drop)]
pub struct RecallPlace {
    keys: Vec<LegKey>,
    at: usize,
    legs: FewLegs,
    notes: EntryNotes,
    last: LastNote,
}

impl RecallPlace {
    /// Returns the place before the leg at the first key. It takes no memory.
    pub fn new(alloc: Global, keys: Vec<LegKey>) -> RecallPlace
        ensures begun { (tables : Tables) (entries : List Entry) → StandFor tables entries
            → HaveLegs entries keys.items → IsPrefix AreAt keys.items entries []
            × IsBehindRecalled result tables keys.items entries [] }
        ensures rows { (tables : Tables) → IsBehindRecalledRows result tables keys.items [] }
    {
        let legs = FewLegs::new(alloc);
        let notes = EntryNotes::new(alloc);
        RecallPlace {
            keys,
            at: 0,
            legs,
            notes,
            last: LastNote::new(),
        }
    }
}

impl Place for RecallPlace {
    type Row = NotedLeg;

    ghost Asked = { List LegKeyOf };

    ghost Shown = { NotedLegOf };

    ghost shown = { shown_noted };

    ghost IsGood = { IsAnyNoted };

    ghost AreAll = { AreAt };

    ghost IsBehind = { IsBehindRecalled };

    ghost AreAllRows = { AreRowsAt };

    ghost IsBehindRows = { IsBehindRecalledRows };

    /// `Damaged` is returned also where the tables have no leg at the key, or no text of a command
    /// for its entry.
    fn next<S: Alter>(
        &mut self,
        alloc: Global,
        conn: &mut Connection<S>,
    ) -> Result<Option<NotedLeg>, Fault> {
        canonical_texts_tell_commands_apart();
        let Some(key) = self.keys.get(self.at) else {
            return Ok(None);
        };
        let key = *key;
        self.legs.read_legs(alloc, conn, &key)?;
        self.notes.read_entry(alloc, conn, key.entry)?;
        let narration = self.notes.narration(alloc, key.entry, &mut self.last)?;
        let leg = self.legs.recall(&key, narration)?;
        self.at += 1;
        Ok(Some(leg))
    }
}
