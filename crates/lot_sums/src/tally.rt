//! What takes rows and adds them up, and tables that are written once all are taken.

ghost use Rattle.std.specs.Prelude.{◌∷◌, ◌++◌, [], Bool, IsErrOf, List, OnOk, ℕ};
ghost use Rattle.lot_io.specs.Writes.{HasFailed, NoneFailed};
ghost use Rattle.lot_report.specs.Written.{WritesEach};
ghost use Rattle.lot_tally.specs.Rows.{Adds};

use lot_io::CountedWrite;
use lot_report::{PrintFault, ReportFault};

/// What takes rows, and adds them up.
pub trait Tally<Row> {
    // What is asked for.
    ghost Terms: { Type 0 };

    // What a row tells it.
    ghost Told: { Type 0 };

    ghost told: { Row → Told };

    // Whether all sums stay in their range with a row behind others.
    ghost fits: { Terms → List Told → Told → Bool };

    // It has taken these rows and no other.
    ghost HasTaken: { Terms → List Told → Self → Type 0 };

    // The lines of the table of these rows, where it is written as a table.
    ghost AreLines: { Terms → List Told → List (List ℕ) → Type 0 };

    /// Takes one more row. The error is `Range` where a sum leaves its range, or `Memory`.
    fn take(&mut self, row: Row) -> Result<(), ReportFault>
        ensures { (terms : Terms) (rows : List Told) → HasTaken terms rows self.old
            → Adds (fits terms rows (told row))
            (HasTaken terms (rows ++ told row ∷ []) self.new) result };
}

/// A table that takes rows, adds them up, and is written.
pub trait Table<Row>: Tally<Row> {
    /// Writes the table. Where memory ends, whole lines are written, but not all. Where the writer fails, a prefix of the lines is
    /// written, but not all of them.
    fn print<W: CountedWrite>(&self, writer: &mut W) -> Result<(), PrintFault>
        ensures lines { (terms : Self.Terms) (rows : List Self.Told)
            → Self.HasTaken terms rows self.now
            → (lines : List (List ℕ)) × Self.AreLines terms rows lines
            × WritesEach (λ text. text) lines (W.contents writer.old) (W.contents writer.new)
            result }
        ensures cause { IsErrOf result PrintFault.Write → HasFailed (W.calls writer.new) }
        ensures none_failed { OnOk result (NoneFailed (W.calls writer.old) (W.calls writer.new)) };
}
