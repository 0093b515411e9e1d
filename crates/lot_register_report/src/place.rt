ghost use Rattle.std.specs.Prelude.{◌≡◌, IfErr, IfOk, List};
ghost use Rattle.lot_book.specs.Facts.{Entry};
ghost use Rattle.lot_book_report.specs.declared.fault.ShowFault.TheVariants.{Walk as AtWalk};
ghost use Rattle.lot_book_report.specs.Show.{HoldsOfBook, HoldsOfTables, ReadsBook};
ghost use Rattle.lot_noted.specs.Book.{NeverFall, asked_in, days_of};
ghost use Rattle.lot_register_report.specs.Show.{BeginsLegs, BeginsRows, IsOfKeys};
ghost use Rattle.lot_rows.specs.Tables.{Tables};
ghost use Rattle.lot_store.specs.declared.fault.StoreFault.TheVariants.{Memory};
ghost use Rattle.lot_store.specs.declared.walk.WalkFault.TheVariants.{Failed};

use crate::days::days_never_fall;
use crate::keys::read_keys;
use lot_book_report::ShowFault;
use lot_noted::RegisterScope;
use lot_noted::laws::legs_stay_where_days_never_fall;
use lot_recall::{OrderedPlace, RecallPlace, RegisterPlace};
use lot_store::Book;
use sqlite::Alter;
use std::alloc::Global;

/// Returns the place of a walk over the legs that a register is over, in its order. Where the days of
/// the book's entries never fall, the walk is to read each leg once. Else their keys are read here,
/// 16 bytes for each. It changes nothing.
pub(crate) fn place_of<S: Alter>(
    alloc: Global,
    book: &mut Book<S>,
    scope: &RegisterScope<'_>,
) -> Result<RegisterPlace, ShowFault>
    ensures legs { HoldsOfBook S.Store book.old book.new
        (λ entries. IfOk result (BeginsLegs (asked_in scope.now) entries)) }
    ensures rows { HoldsOfTables S.Store book.old book.new
        (λ tables. IfOk result (BeginsRows (asked_in scope.now) tables)) }
    ensures reads { ReadsBook S.Store book.old book.new result }
    ensures fault { IfErr result IsOfKeys }
{
    let never_fall = days_never_fall(alloc, book)?;
    if never_fall {
        return in_order(alloc, scope);
    }
    let keys = read_keys(alloc, book, scope)?;
    Ok(RegisterPlace::AtKeys(RecallPlace::new(alloc, keys)))
}

/// Returns the place of a walk over legs in the order in which a book has them, where its days never
/// fall. The only error is out of memory.
fn in_order(alloc: Global, scope: &RegisterScope<'_>) -> Result<RegisterPlace, ShowFault>
    ensures legs { IfOk result (λ place. (entries : List Entry) → NeverFall (days_of entries)
        → BeginsLegs (asked_in scope.now) entries place) }
    ensures rows { IfOk result (λ place. (tables : Tables)
        → BeginsRows (asked_in scope.now) tables place) }
    ensures memory { IfErr result (λ fault. fault ≡ AtWalk (Failed Memory)) }
{
    legs_stay_where_days_never_fall();
    let place = OrderedPlace::new(alloc, scope)?;
    Ok(RegisterPlace::InOrder(place))
}
