ghost use Rattle.std.specs.Prelude.{OnOk};
ghost use Rattle.lot_book_report.specs.Show.{HoldsOfBook, ReadsBook};
ghost use Rattle.lot_compare.specs.Books.{AddsGains, AddsHeld};
ghost use Rattle.lot_compare.specs.Fault.{IsNotOfWriter};

use crate::amounts::{add_holding, add_sale};
use crate::sums::{Side, Sums};
use lot_book_report::ShowFault;
use lot_store::{Book, StoreFault};
use sqlite::Alter;
use std::alloc::Global;

/// Adds what a book gained, and what it holds.
pub(crate) fn add_book<S: Alter>(
    alloc: Global,
    side: Side,
    book: &mut Book<S>,
    gains: &mut Sums,
    held: &mut Sums,
) -> Result<(), ShowFault>
    ensures gains { OnOk result (HoldsOfBook S.Store book.old book.new
        (λ entries. AddsGains side entries gains.old.sums.entries gains.new.sums.entries)) }
    ensures held { OnOk result (HoldsOfBook S.Store book.old book.new
        (λ entries. AddsHeld side entries held.old.sums.entries held.new.sums.entries)) }
    ensures fault { IsNotOfWriter result }
    ensures reads { ReadsBook S.Store book.old book.new result }
{
    add_gains(alloc, side, book, gains)?;
    add_held(alloc, side, book, held)
}

/// Adds what the priced sales of a book gained, each to the year of its day and the currency of its price. The error is that
/// of the book, out of memory, or `Range` where a sum leaves the range of `i128`.
fn add_gains<S: Alter>(
    alloc: Global,
    side: Side,
    book: &mut Book<S>,
    sums: &mut Sums,
) -> Result<(), ShowFault>
    ensures sums { OnOk result (HoldsOfBook S.Store book.old book.new
        (λ entries. AddsGains side entries sums.old.sums.entries sums.new.sums.entries)) }
    ensures fault { IsNotOfWriter result }
    ensures reads { ReadsBook S.Store book.old book.new result }
{
    let mut walk = book.gains(None, None);
    'sales: for _ in 0..u64::MAX {
        let Some(sold) = walk.next()? else {
            return Ok(());
        };
        add_sale(alloc, side, &sold.sale, sums)?;
    }
    // No book has so many sales.
    Err(ShowFault::from(StoreFault::Memory))
}

/// Adds what a book holds, plain units and lots, each to its account and its commodity. The error is that of the book, out of
/// memory, or `Range` where a sum leaves the range of `i128`.
fn add_held<S: Alter>(
    alloc: Global,
    side: Side,
    book: &mut Book<S>,
    sums: &mut Sums,
) -> Result<(), ShowFault>
    ensures sums { OnOk result (HoldsOfBook S.Store book.old book.new
        (λ entries. AddsHeld side entries sums.old.sums.entries sums.new.sums.entries)) }
    ensures fault { IsNotOfWriter result }
    ensures reads { ReadsBook S.Store book.old book.new result }
{
    let mut walk = book.holdings();
    'holdings: for _ in 0..u64::MAX {
        let Some(holding) = walk.next()? else {
            return Ok(());
        };
        add_holding(alloc, side, &holding, sums)?;
    }
    // No book has so many holdings.
    Err(ShowFault::from(StoreFault::Memory))
}
