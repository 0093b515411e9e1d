ghost use Rattle.std.specs.Prelude.{◌≡◌, ◌&&◌, IfErr, IfOk, IsTrue, true, ℤ};
ghost use Rattle.lot_book_report.specs.Show.{HoldsOfBook, ReadsBook};
ghost use Rattle.lot_noted.specs.Book.{NeverFall, days_of};
ghost use Rattle.lot_register_report.specs.Show.{AreNoDayLines, HasTakenDays, IsOfKeys};
ghost use Rattle.lot_walk.specs.Gains.{is_from};

use lot_base::Day;
use lot_book_report::ShowFault;
use lot_recall::DaysPlace;
use lot_report::ReportFault;
use lot_store::Book;
use lot_sums::{Tally, gather};
use sqlite::Alter;
use std::alloc::Global;

/// Returns whether the days of the entries of a book never fall, in the order of the entries. It
/// changes nothing.
pub(crate) fn days_never_fall<S: Alter>(
    alloc: Global,
    book: &mut Book<S>,
) -> Result<bool, ShowFault>
    ensures days { HoldsOfBook S.Store book.old book.new
        (λ entries. IfOk result (λ answer. IsTrue answer → NeverFall (days_of entries))) }
    ensures reads { ReadsBook S.Store book.old book.new result }
    ensures fault { IfErr result IsOfKeys }
{
    let mut tally = DayTally {
        last: None,
        never_fall: true,
    };
    let place = DaysPlace::new(alloc);
    let mut walk = book.walk_from(place);
    gather(&mut walk, &mut tally)?;
    Ok(tally.never_fall)
}

/// Whether days never fall, which it takes one after another.
#[derive(Drop)]
struct DayTally {
    /// The day that was taken last.
    last: Option<Day>,
    never_fall: bool,
}

impl DayTally {
    /// Returns whether days never fall with one more.
    fn rises_to(&self, day: Day) -> bool
        ensures { result ≡ (self.now.never_fall && is_from self.now.last day) }
    {
        self.never_fall && is_from(self.last, day)
    }
}

impl Tally<Day> for DayTally {
    ghost Terms = { Unit {0} };

    ghost Told = { ℤ };

    ghost told = { λ day. day };

    ghost fits = { λ _ _ _. true };

    ghost HasTaken = { HasTakenDays };

    ghost AreLines = { AreNoDayLines };

    fn take(&mut self, day: Day) -> Result<(), ReportFault> {
        self.never_fall = self.rises_to(day);
        self.last = Some(day);
        Ok(())
    }
}

/// Returns whether a day isn't before the last one, if there was one.
fn is_from(last: Option<Day>, day: Day) -> bool
    ensures { result ≡ is_from last day }
{
    match last {
        Some(last) => last <= day,
        None => true,
    }
}
