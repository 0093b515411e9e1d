ghost use Rattle.std.specs.Prelude.{◌++◌, IsErrOf, OnOk};
ghost use Rattle.lot_compare.specs.Books.{HoldsOfBoth, ReadsNew, ReadsOld, ShowsDifferences, ShowsSomeLines};
ghost use Rattle.lot_compare.specs.Fault.{HasCause};
ghost use Rattle.lot_compare.specs.Lines.{WritesLines, of_kind};
ghost use Rattle.lot_compare.specs.Sums.{differing};
ghost use Rattle.lot_io.specs.Writes.{HasFailed, NoneFailed, writes_between};

use crate::book::add_book;
use crate::fault::CompareFault;
use crate::lines::{Kind, print_differing};
use crate::sums::{Side, Sums};
use lot_io::CountedWrite;
use lot_report::ReportFault;
use lot_store::Book;
use sqlite::Alter;
use std::alloc::Global;

/// Writes how two books differ: a line for each year and currency in which their sales gained another sum, and then one for
/// each account and commodity of which they hold another sum. Where they don't differ nothing is written. Nothing is flushed.
///
/// All sums are worked out before the first line. So where a book stops, nothing is written. Its memory grows with years and
/// currencies, and with accounts and commodities, alone. Both books can still be used, unless `Device` is the fault of one.
pub fn compare<S: Alter, T: Alter, W: CountedWrite>(
    alloc: Global,
    new: &mut Book<S>,
    old: &mut Book<T>,
    writer: &mut W,
) -> Result<(), CompareFault>
    ensures shows { HoldsOfBoth S.Store T.Store new.old new.new old.old old.new
        (λ in_new in_old. ShowsDifferences in_new in_old
        (W.contents writer.old) (W.contents writer.new) result) }
    ensures lines { ShowsSomeLines (W.contents writer.old) (W.contents writer.new) result }
    ensures reads_new { ReadsNew S.Store new.old new.new result }
    ensures reads_old { ReadsOld T.Store old.old old.new result }
    ensures cause { HasCause result (writes_between (W.calls writer.old) (W.calls writer.new)) }
{
    let mut gains = Sums::new(alloc);
    let mut held = Sums::new(alloc);
    match add_book(alloc, Side::New, new, &mut gains, &mut held) {
        Ok(()) => {}
        Err(fault) => return Err(CompareFault::New(fault)),
    }
    match add_book(alloc, Side::Old, old, &mut gains, &mut held) {
        Ok(()) => {}
        Err(fault) => return Err(CompareFault::Old(fault)),
    }
    match print_both(alloc, &gains, &held, writer) {
        Ok(()) => Ok(()),
        Err(fault) => Err(CompareFault::Lines(fault)),
    }
}

/// Writes the lines of the gains, and then those of what is held.
fn print_both<W: CountedWrite>(
    alloc: Global,
    gains: &Sums,
    held: &Sums,
    writer: &mut W,
) -> Result<(), ReportFault>
    ensures lines { WritesLines
        (of_kind Kind.Gained (differing gains.now.sums.entries)
        ++ of_kind Kind.Held (differing held.now.sums.entries))
        (W.contents writer.old) (W.contents writer.new) result }
    ensures cause { IsErrOf result ReportFault.Write → HasFailed (W.calls writer.new) }
    ensures none_failed { OnOk result (NoneFailed (W.calls writer.old) (W.calls writer.new)) }
{
    print_differing(alloc, Kind::Gained, gains, writer)?;
    print_differing(alloc, Kind::Held, held, writer)
}
