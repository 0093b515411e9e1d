ghost use Rattle.std.specs.Prelude.{◌≡◌, false, None, ℤ, option_map};
ghost use Rattle.sqlite.specs.Held.{state};
ghost use Rattle.lot_page.specs.Cursor.{IsBehind};
ghost use Rattle.lot_walk.specs.Prices.{AreAllPriceRows, ArePricesAt, IsAnyPrice, IsBehindPriceRows, IsBehindPrices, Progresses, ProgressesOverRows, is_of_pair, last_after, price_of, progress_of, shown_price};
ghost use Rattle.lot_walk.specs.Step.{HasGivenNoRows, HasGivenNone};
ghost use Rattle.lot_walk.specs.declared.price.PairPrice.{PairPrice as PairPriceOf};

use crate::place::Place;
use crate::price::PairPrice;
use lot_base::Day;
use lot_page::PriceCursor;
use lot_rows::price::PriceRow;
use lot_table::Fault;
use sqlite::{Alter, Connection};
use std::alloc::Global;

/// The place of a walk over the prices of a book at a day, by base and quote. A pair without a price at the day isn't given.
#[derive(Drop)]
pub struct PricesPlace {
    day: Day,
    /// The row read last of those up to the day: the price of its pair, unless one more of the pair comes.
    last: Option<PriceRow>,
    rows: PriceCursor,
    is_past_last: bool,
}

/// How far a place comes with one more row.
#[derive(Drop)]
enum PriceStep {
    /// No price is known by it.
    Passed,
    /// The next price is known, or that there is none more.
    Gives(Option<PairPrice>),
}

impl Place for PricesPlace {
    type Row = PairPrice;

    ghost Asked = { ℤ };

    ghost Shown = { PairPriceOf };

    ghost shown = { shown_price };

    ghost IsGood = { IsAnyPrice };

    ghost AreAll = { ArePricesAt };

    ghost IsBehind = { IsBehindPrices };

    ghost AreAllRows = { AreAllPriceRows };

    ghost IsBehindRows = { IsBehindPriceRows };

    fn next<S: Alter>(
        &mut self,
        _alloc: Global,
        conn: &mut Connection<S>,
    ) -> Result<Option<PairPrice>, Fault> {
        'rows: for _ in 0..u64::MAX {
            match self.step(conn)? {
                PriceStep::Passed => {}
                PriceStep::Gives(found) => return Ok(found),
            }
        }
        Err(Fault::Memory)
    }
}

impl PricesPlace {
    /// Returns the place before the first row. It takes no memory.
    pub fn new(alloc: Global, day: Day) -> PricesPlace
        ensures begun { HasGivenNone ArePricesAt IsBehindPrices result day }
        ensures rows { HasGivenNoRows IsBehindPriceRows result day }
    {
        PricesPlace {
            day,
            last: None,
            rows: PriceCursor::new(alloc),
            is_past_last: false,
        }
    }

    /// Reads one more row, if one is left.
    fn step<S: Alter>(&mut self, conn: &mut Connection<S>) -> Result<PriceStep, Fault>
        ensures progress { Progresses self.old self.new (state S.Store conn.old)
            (state S.Store conn.new) result }
        ensures rows { ProgressesOverRows self.old self.new (state S.Store conn.old)
            (state S.Store conn.new) result }
    {
        if self.is_past_last {
            return Ok(self.give_last());
        }
        match self.rows.next(conn)? {
            Some(row) => Ok(self.pass(row)),
            None => {
                self.is_past_last = true;
                Ok(self.give_last())
            }
        }
    }

    /// Goes behind a row, which is the next.
    fn pass(&mut self, row: PriceRow) -> PriceStep
        ensures day { self.new.day ≡ self.old.day }
        ensures rows { self.new.rows ≡ self.old.rows }
        ensures past { self.new.is_past_last ≡ self.old.is_past_last }
        ensures last { self.new.last ≡ last_after self.old.day self.old.last row }
        ensures progress { result ≡ progress_of self.old.day self.old.last row }
    {
        if row.day > self.day {
            return PriceStep::Passed;
        }
        let is_next_pair = match &self.last {
            Some(last) => !is_of_pair(last, &row),
            None => false,
        };
        let last = self.last.replace(row);
        if is_next_pair {
            PriceStep::Gives(last.map(price_of))
        } else {
            PriceStep::Passed
        }
    }

    /// Gives the last price, if it isn't given yet.
    fn give_last(&mut self) -> PriceStep
        ensures day { self.new.day ≡ self.old.day }
        ensures rows { self.new.rows ≡ self.old.rows }
        ensures past { self.new.is_past_last ≡ self.old.is_past_last }
        ensures last { self.new.last ≡ None }
        ensures progress { result ≡ PriceStep.Gives (option_map price_of self.old.last) }
    {
        PriceStep::Gives(self.last.take().map(price_of))
    }
}

/// Returns whether two rows are of one pair.
fn is_of_pair(row: &PriceRow, other: &PriceRow) -> bool
    ensures { result ≡ is_of_pair row.now other.now }
{
    row.base == other.base && row.quote == other.quote
}

/// Returns the price that a row says.
fn price_of(row: PriceRow) -> PairPrice
    ensures { result ≡ price_of row }
{
    let PriceRow {
        base,
        quote,
        day: _,
        rate,
    } = row;
    PairPrice { base, quote, rate }
}
