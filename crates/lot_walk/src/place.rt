ghost use Rattle.std.specs.Prelude.{List, OnErr};
ghost use Rattle.sqlite.specs.Held.{state};
ghost use Rattle.sqlite.specs.State.{HasCleanDisk};
ghost use Rattle.lot_book.specs.Facts.{Entry};
ghost use Rattle.lot_rows.specs.Tables.{Tables};
ghost use Rattle.lot_table.specs.declared.fault.Fault.TheVariants.{Damaged, Device};
ghost use Rattle.lot_walk.specs.Step.{StaysOrGoesBack, Steps, StepsOverRows};

use lot_table::Fault;
use sqlite::{Alter, Connection};
use std::alloc::Global;

/// The place of a walk among the rows of a book. It borrows nothing.
pub trait Place: Drop {
    /// What the walk gives.
    type Row: Drop;

    // What is asked for, and what is told of a row, which is good whatever the tables are.
    ghost Asked: { Type 0 };

    ghost Shown: { Type 0 };

    ghost shown: { Self.Row → Shown };

    ghost IsGood: { Self.Row → Type 0 };

    // Which rows are those of a book, and which of them the place has given.
    ghost AreAll: { Asked → List Entry → List Shown → Type 0 };

    ghost IsBehind: { Self → Tables → Asked → List Entry → List Shown → Type 0 };

    // The same of tables whose rows may be those of no book.
    ghost AreAllRows: { Asked → Tables → List Shown → Type 0 };

    ghost IsBehindRows: { Self → Tables → Asked → List Shown → Type 0 };

    /// Returns the next row, or `None` past the last. No row that is damaged stands before a `None`. It changes
    /// nothing.
    ///
    /// The error is `Damaged` only where the tables stand for no book.
    fn next<S: Alter>(
        &mut self,
        alloc: Global,
        conn: &mut Connection<S>,
    ) -> Result<Option<Self::Row>, Fault>
        ensures steps { Steps shown IsGood AreAll IsBehind Damaged Device self.old self.new
            (state S.Store conn.old) (state S.Store conn.new) result }
        ensures rows { StepsOverRows shown AreAllRows IsBehindRows self.old self.new
            (state S.Store conn.old) (state S.Store conn.new) result }
        ensures left { HasCleanDisk (state S.Store conn.new)
            → OnErr result (StaysOrGoesBack (state S.Store conn.old) (state S.Store conn.new)) };
}
