ghost use Rattle.std.specs.Prelude.{IfErr, IfOk, true};
ghost use Rattle.lot_book_report.specs.Show.{HoldsOfBook, HoldsOfTables, ReadsBook};
ghost use Rattle.lot_legs.specs.declared.leg.DatedLeg.{DatedLeg as DatedLegOf};
ghost use Rattle.lot_noted.specs.Book.{Asked, asked_in};
ghost use Rattle.lot_register_report.specs.Show.{AreKeysOf, AreKeysOfRows, AreNoLines, HasTaken, IsOfKeys};

use lot_book_report::ShowFault;
use lot_legs::DatedLeg;
use lot_noted::{LegKey, LegKeys, RegisterScope};
use lot_report::ReportFault;
use lot_store::Book;
use lot_sums::{Tally, gather};
use sqlite::Alter;
use std::alloc::Global;

/// Returns the keys of the legs that a register is over, in the order of days, those of one day in
/// that of entries. It takes 16 bytes for each, and changes nothing.
pub(crate) fn read_keys<S: Alter>(
    alloc: Global,
    book: &mut Book<S>,
    scope: &RegisterScope<'_>,
) -> Result<Vec<LegKey>, ShowFault>
    ensures keys { HoldsOfBook S.Store book.old book.new
        (λ entries. IfOk result (λ keys. AreKeysOf (asked_in scope.now) entries keys.items)) }
    ensures rows { HoldsOfTables S.Store book.old book.new
        (λ tables. IfOk result (λ keys.
        AreKeysOfRows (asked_in scope.now) tables keys.items)) }
    ensures reads { ReadsBook S.Store book.old book.new result }
    ensures fault { IfErr result IsOfKeys }
{
    let mut tally = KeyTally {
        keys: LegKeys::new(alloc, scope),
    };
    let mut walk = book.legs();
    gather(&mut walk, &mut tally)?;
    Ok(tally.keys.into_sorted())
}

/// Keys that take the legs of a walk, and write nothing.
#[derive(Drop)]
struct KeyTally<'a> {
    keys: LegKeys<'a>,
}

impl Tally<DatedLeg> for KeyTally<'_> {
    ghost Terms = { Asked };

    ghost Told = { DatedLegOf };

    ghost told = { λ leg. leg };

    ghost fits = { λ _ _ _. true };

    ghost HasTaken = { HasTaken };

    ghost AreLines = { AreNoLines };

    fn take(&mut self, leg: DatedLeg) -> Result<(), ReportFault> {
        self.keys.add(&leg)
    }
}
