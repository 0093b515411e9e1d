ghost use Rattle.lot_book_report.specs.Fault.{HasCause};
ghost use Rattle.lot_book_report.specs.Show.{HoldsOfBook, HoldsOfTables, ReadsBook};
ghost use Rattle.lot_io.specs.Writes.{writes_between};
ghost use Rattle.lot_noted.specs.Book.{asked_in, register_legs};
ghost use Rattle.lot_register_report.specs.Show.{ShowsAllLegs, ShowsRegister, ShowsSomeRegister};

use crate::place::place_of;
use crate::write::write_register;
use lot_base::Day;
use lot_book_report::ShowFault;
use lot_io::CountedWrite;
use lot_noted::RegisterScope;
use lot_register::Register;
use lot_store::Book;
use lot_tally::TableForm;
use sqlite::Alter;
use std::alloc::Global;

/// Writes the register of accounts of a book: each leg of theirs in the order of days, those of one
/// day in that of entries, with what is left behind it of its commodity in its account. What is left
/// counts from the first leg of the book on; rows are written from the first day on, where one is
/// given. Nothing is flushed.
///
/// Where the days of the book's entries never fall, each leg is read once, and little memory is taken.
/// Else the legs are read twice, and it takes 16 bytes for each.
///
/// Where the book stops, the rows before are written, and nothing behind them, or nothing at all.
/// Where what is left leaves the range of units, the rows before are written, and the book can still
/// be used. Where the call succeeds, the rows are those of all legs of the accounts that the table
/// has, whatever it stands for.
pub fn show_register<S: Alter, W: CountedWrite>(
    alloc: Global,
    book: &mut Book<S>,
    scope: &RegisterScope<'_>,
    first: Option<Day>,
    form: TableForm,
    writer: &mut W,
) -> Result<(), ShowFault>
    ensures shows { HoldsOfBook S.Store book.old book.new
        (λ entries. ShowsRegister (form, first) (register_legs (asked_in scope.now) entries)
        (W.contents writer.old) (W.contents writer.new) result) }
    ensures some { ShowsSomeRegister (form, first)
        (W.contents writer.old) (W.contents writer.new) result }
    ensures rows { HoldsOfTables S.Store book.old book.new
        (λ tables. ShowsAllLegs (form, first) (asked_in scope.now) tables
        (W.contents writer.old) (W.contents writer.new) result) }
    ensures reads { ReadsBook S.Store book.old book.new result }
    ensures cause { HasCause result (writes_between (W.calls writer.old) (W.calls writer.new)) }
{
    let place = place_of(alloc, book, scope)?;
    let mut register = Register::new(alloc, form, first);
    let mut walk = book.walk_from(place);
    write_register(&mut walk, &mut register, writer)
}
