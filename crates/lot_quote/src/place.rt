ghost use Rattle.lot_quote.specs.Quotes.{AreQuoteRows, AreQuotes, IsAnyQuote, IsBehindQuoteRows, IsBehindQuotes};
ghost use Rattle.lot_rows.specs.declared.price.PriceRow.{PriceRow as PriceRowOf};
ghost use Rattle.lot_walk.specs.Step.{HasGivenNoRows, HasGivenNone};

use lot_page::PriceCursor;
use lot_rows::price::PriceRow;
use lot_table::Fault;
use lot_walk::Place;
use sqlite::{Alter, Connection};
use std::alloc::Global;

/// The place of a walk over the prices of a book: by base and quote, and of each such pair by day.
#[derive(Drop)]
pub struct QuotesPlace {
    cursor: PriceCursor,
}

impl QuotesPlace {
    /// Returns the place before the first price. It takes no memory.
    pub fn new(alloc: Global) -> QuotesPlace
        ensures begun { HasGivenNone AreQuotes IsBehindQuotes result tt }
        ensures rows { HasGivenNoRows IsBehindQuoteRows result tt }
    {
        QuotesPlace {
            cursor: PriceCursor::new(alloc),
        }
    }
}

impl Place for QuotesPlace {
    type Row = PriceRow;

    ghost Asked = { Unit {0} };

    ghost Shown = { PriceRowOf };

    ghost shown = { λ row. row };

    ghost IsGood = { IsAnyQuote };

    ghost AreAll = { AreQuotes };

    ghost IsBehind = { IsBehindQuotes };

    ghost AreAllRows = { AreQuoteRows };

    ghost IsBehindRows = { IsBehindQuoteRows };

    fn next<S: Alter>(
        &mut self,
        _alloc: Global,
        conn: &mut Connection<S>,
    ) -> Result<Option<PriceRow>, Fault> {
        self.cursor.next(conn)
    }
}
