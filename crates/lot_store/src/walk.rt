//! Walks over the rows of a book: each is a value that borrows the book, and gives one row after another.
ghost use Rattle.std.specs.Prelude.{◌≡◌, [], List};
ghost use Rattle.lot_book.specs.Facts.{Entry};
ghost use Rattle.lot_legs.specs.Legs.{AreDatedLegs};
ghost use Rattle.lot_legs.specs.Place.{IsBehindLegRows, IsBehindLegs};
ghost use Rattle.lot_rows.specs.Tables.{Has, Tables};
ghost use Rattle.lot_store.specs.Walk.{HasGiven, HasGivenRows, Walks, WalksOverRows, stage_after};
ghost use Rattle.lot_stored.specs.StandFor.{Stands};
ghost use Rattle.lot_walk.specs.Gains.{AreSalesWithin, IsBehindSaleRows, IsBehindSales};
ghost use Rattle.lot_walk.specs.Holdings.{AreHoldings, IsBehindHoldingRows, IsBehindHoldings};
ghost use Rattle.lot_walk.specs.Journal.{AreEntries, IsBehindEntries, IsBehindEntryRows};
ghost use Rattle.lot_walk.specs.Prices.{ArePricesAt, IsBehindPriceRows, IsBehindPrices};
ghost use Rattle.sqlite.specs.Held.{state};

use crate::book::Book;
use crate::fault::StoreFault;
use lot_base::Day;
use lot_legs::LegsPlace;
use lot_walk::{GainsPlace, HoldingsPlace, JournalPlace, Place, PricesPlace};
use sqlite::Alter;
use thiserror::Error;

/// A walk over the sales of a book on the days of a range, in their order, each with its legs.
pub type Gains<'a, S> = Walk<'a, S, GainsPlace>;

/// A walk over what a book holds: by account, then commodity, the plain units first, then the lots in the order of their keys.
pub type Holdings<'a, S> = Walk<'a, S, HoldingsPlace>;

/// A walk over the entries of a book, in their order. Each has the canonical text of its command.
pub type Journal<'a, S> = Walk<'a, S, JournalPlace>;

/// A walk over the legs of a book, in the order of entries, postings and places, each with the day of its entry.
pub type Legs<'a, S> = Walk<'a, S, LegsPlace>;

/// A walk over the prices of a book at a day, by base and quote. A pair without a price at the day isn't given.
pub type Prices<'a, S> = Walk<'a, S, PricesPlace>;

/// Why a walk gives no row (docs/RULES.md, All codes).
#[derive(Clone, Copy, Debug, PartialEq, Eq, Error)]
pub enum WalkFault {
    /// The book stops the walk, which ends here.
    #[error("{0}")]
    Failed(StoreFault),
    /// An earlier call had a fault.
    #[error("the walk has ended with a fault")]
    Ended,
}

impl From<StoreFault> for WalkFault {
    ghost use Rattle.std.specs.Prelude.{◌≡◌};
    ghost use Rattle.lot_store.specs.declared.walk.WalkFault.TheVariants.{Failed};

    ghost from_gives = { λ fault e. e ≡ Failed fault };

    fn from(fault: StoreFault) -> WalkFault {
        WalkFault::Failed(fault)
    }
}

/// How far a walk is.
#[derive(Clone, Copy)]
enum Stage {
    Going,
    /// All rows were given.
    Complete,
    /// A fault ended it.
    Ended,
}

/// A walk over rows of a book, which it borrows. It holds a page of rows at a time. A walk over the holdings also holds all
/// plain units, a walk over the gains the legs of a sale, and one over the legs a page of entries. It may be dropped at any row;
/// that changes nothing.
pub struct Walk<'a, S: Alter, P> {
    book: &'a mut Book<S>,
    place: P,
    stage: Stage,
}

impl<S: Alter> Book<S> {
    /// Returns a walk over all entries, before the first. It reads nothing yet.
    pub fn journal(&mut self) -> Journal<'_, S>
        ensures same_reference { result.book.ghost_name ≡ self.entry.ghost_name }
        ensures same { result.book.now ≡ self.old }
        ensures going { result.stage ≡ Stage.Going }
        ensures begun { (entries : List Entry) → Stands (state S.Store self.old.conn) entries
            → HasGiven S.Store AreEntries IsBehindEntries result tt entries [] }
        ensures rows { (tables : Tables) → Has (state S.Store self.old.conn) tables
            → HasGivenRows S.Store IsBehindEntryRows result tt tables [] }
    {
        let place = JournalPlace::new(self.allocator());
        Walk {
            book: self,
            place,
            stage: Stage::Going,
        }
    }

    /// Returns a walk over all legs, each with the day of its entry, before the first. It reads nothing yet.
    pub fn legs(&mut self) -> Legs<'_, S>
        ensures same_reference { result.book.ghost_name ≡ self.entry.ghost_name }
        ensures same { result.book.now ≡ self.old }
        ensures going { result.stage ≡ Stage.Going }
        ensures begun { (entries : List Entry) → Stands (state S.Store self.old.conn) entries
            → HasGiven S.Store AreDatedLegs IsBehindLegs result tt entries [] }
        ensures rows { (tables : Tables) → Has (state S.Store self.old.conn) tables
            → HasGivenRows S.Store IsBehindLegRows result tt tables [] }
    {
        let place = LegsPlace::new(self.allocator());
        Walk {
            book: self,
            place,
            stage: Stage::Going,
        }
    }

    /// Returns a walk from a place. It reads nothing yet. What the walk gives is what the place gives.
    pub fn walk_from<P: Place>(&mut self, place: P) -> Walk<'_, S, P>
        ensures same_reference { result.book.ghost_name ≡ self.entry.ghost_name }
        ensures same { result.book.now ≡ self.old }
        ensures going { result.stage ≡ Stage.Going }
        ensures place { result.place ≡ place }
    {
        Walk {
            book: self,
            place,
            stage: Stage::Going,
        }
    }

    /// Returns a walk over all that the book holds, before the first row. It reads nothing yet.
    pub fn holdings(&mut self) -> Holdings<'_, S>
        ensures same_reference { result.book.ghost_name ≡ self.entry.ghost_name }
        ensures same { result.book.now ≡ self.old }
        ensures going { result.stage ≡ Stage.Going }
        ensures begun { (entries : List Entry) → Stands (state S.Store self.old.conn) entries
            → HasGiven S.Store AreHoldings IsBehindHoldings result tt entries [] }
        ensures rows { (tables : Tables) → Has (state S.Store self.old.conn) tables
            → HasGivenRows S.Store IsBehindHoldingRows result tt tables [] }
    {
        let place = HoldingsPlace::new(self.allocator());
        Walk {
            book: self,
            place,
            stage: Stage::Going,
        }
    }

    /// Returns a walk over the sales from the first day to the last, both included, before the first sale. Without a day that
    /// end of the range is open. It reads nothing yet.
    pub fn gains(&mut self, first: Option<Day>, last: Option<Day>) -> Gains<'_, S>
        ensures same_reference { result.book.ghost_name ≡ self.entry.ghost_name }
        ensures same { result.book.now ≡ self.old }
        ensures going { result.stage ≡ Stage.Going }
        ensures begun { (entries : List Entry) → Stands (state S.Store self.old.conn) entries
            → HasGiven S.Store AreSalesWithin IsBehindSales result (first, last) entries [] }
        ensures rows { (tables : Tables) → Has (state S.Store self.old.conn) tables
            → HasGivenRows S.Store IsBehindSaleRows result (first, last) tables [] }
    {
        let place = GainsPlace::new(self.allocator(), first, last);
        Walk {
            book: self,
            place,
            stage: Stage::Going,
        }
    }

    /// Returns a walk over the prices at a day, before the first. It reads nothing yet.
    pub fn prices(&mut self, day: Day) -> Prices<'_, S>
        ensures same_reference { result.book.ghost_name ≡ self.entry.ghost_name }
        ensures same { result.book.now ≡ self.old }
        ensures going { result.stage ≡ Stage.Going }
        ensures begun { (entries : List Entry) → Stands (state S.Store self.old.conn) entries
            → HasGiven S.Store ArePricesAt IsBehindPrices result day entries [] }
        ensures rows { (tables : Tables) → Has (state S.Store self.old.conn) tables
            → HasGivenRows S.Store IsBehindPriceRows result day tables [] }
    {
        let place = PricesPlace::new(self.allocator(), day);
        Walk {
            book: self,
            place,
            stage: Stage::Going,
        }
    }
}

impl<S: Alter, P: Place> Walk<'_, S, P> {
    /// Returns the next row, or `None` past the last. It changes nothing in the file.
    ///
    /// After a fault each further call returns `Ended`. After `Device`, and only then, the book needs reopening. The error is
    /// `Damaged` only where the tables stand for no book. A damaged row never ends a walk as if it were complete: at `None` all
    /// rows of the tables were given, whatever the tables stand for.
    pub fn next(&mut self) -> Result<Option<P::Row>, WalkFault>
        ensures same_reference { self.new.book.ghost_name ≡ self.old.book.ghost_name }
        ensures walks { Walks S.Store P.Place.shown P.Place.IsGood P.Place.AreAll P.Place.IsBehind
            self.old self.new result }
        ensures rows { WalksOverRows S.Store P.Place.shown P.Place.AreAllRows P.Place.IsBehindRows
            self.old self.new result }
    {
        match self.stage {
            Stage::Going => {}
            Stage::Complete => return Ok(None),
            Stage::Ended => return Err(WalkFault::Ended),
        }
        let found = self.book.read_next(&mut self.place);
        self.stage = stage_after(&found);
        Ok(found?)
    }
}

/// Returns how far a walk is after what it read.
fn stage_after<R>(found: &Result<Option<R>, StoreFault>) -> Stage
    ensures { result ≡ stage_after found.now }
{
    match found {
        Ok(Some(_)) => Stage::Going,
        Ok(None) => Stage::Complete,
        Err(_) => Stage::Ended,
    }
}

impl<S: Alter, P: Drop> Drop for Walk<'_, S, P> {
    fn drop(self)
        ensures { self.exit.0.now ≡ self.entry.book.now }
    {
        let Walk {
            book: _,
            place: _,
            stage: _,
        } = self;
    }
}
