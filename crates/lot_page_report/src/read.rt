//! What is read of a book before its page is written.

ghost use Rattle.std.specs.Prelude.{◌≡◌, ◌≢◌, ◌||◌, ◌∷◌, ◌++◌, [], IfErr, IfOk, List, Option, false, map, not, true};
ghost use Rattle.lot_book.specs.Sale.{SaleParts};
ghost use Rattle.lot_book_report.specs.Dump.{digest_of};
ghost use Rattle.lot_book_report.specs.Gains.{sale_in};
ghost use Rattle.lot_legs.specs.Legs.{AreAllLegRows, dated_legs};
ghost use Rattle.lot_legs.specs.declared.leg.DatedLeg.{DatedLeg as DatedLegOf};
ghost use Rattle.lot_months.specs.Prices.{HasPrices};
ghost use Rattle.lot_months.specs.declared.range.MonthRange.{MonthRange as MonthRangeOf};
ghost use Rattle.lot_page_report.specs.Counted.{HasCounted};
ghost use Rattle.lot_page_report.specs.Parts.{IsDigestFor, digest_for};
ghost use Rattle.lot_page_report.specs.Read.{Asked, FlowsOf, HasAllLegs, HasLegs, HasQuotes, HasSales, MoveTooMuch, PricesOf, Reads, all_fit};
ghost use Rattle.lot_quote.specs.Quotes.{AreQuoteRows, AreQuotes};
ghost use Rattle.lot_report.specs.declared.fault.ReportFault.TheVariants.{Memory};
ghost use Rattle.lot_rows.specs.declared.entry.EntryRow.{EntryRow as EntryRowOf};
ghost use Rattle.lot_rows.specs.declared.price.PriceRow.{PriceRow as PriceRowOf};
ghost use Rattle.lot_store.specs.Extent.{extent_of};
ghost use Rattle.lot_store.specs.declared.book.Condition.TheVariants.{NeedsReopen};
ghost use Rattle.lot_stored.specs.Rows.{entry_rows};
ghost use Rattle.lot_sums.specs.Gather.{HasUnfit};
ghost use Rattle.lot_walk.specs.Gains.{AreAllSaleRows, AreSalesWithin};
ghost use Rattle.lot_walk.specs.declared.gains.NumberedSale.{NumberedSale as NumberedSaleOf};

use crate::counted::Counted;
use crate::scope::Heading;
use lot_base::Day;
use lot_book_report::{BookDigest, ShowFault, digest_book};
use lot_legs::DatedLeg;
use lot_months::{MonthFlows, MonthPrices, MonthRange};
use lot_position::Positions;
use lot_quote::{PriceRow, QuotesPlace};
use lot_report::{ReportFault, RowFault};
use lot_store::Book;
use lot_sums::{Tally, gather};
use lot_tally::{GainKey, GainsTable, TableForm};
use lot_walk::NumberedSale;
use sqlite::Alter;
use std::alloc::Global;

/// Returns the digest of a book that needs no reopening, where one is asked for.
pub(crate) fn read_digest<S: Alter>(
    book: &mut Book<S>,
    heading: Heading,
) -> Result<Option<BookDigest>, ShowFault>
    ensures { book.old.condition ≢ NeedsReopen → Reads S.Store book.old book.new
        (λ place entries digest. digest
        ≡ digest_for heading (digest_of (extent_of place entries) (entry_rows 1 entries)))
        (λ tables digest. IsDigestFor heading tables digest) (λ digest. Unit {0})
        (λ entries. ⊥) result }
{
    match heading {
        Heading::Entries => Ok(None),
        Heading::Digest => Ok(Some(digest_book(book)?)),
    }
}

/// Counts the entries of a book.
pub(crate) fn read_entries<S: Alter>(
    book: &mut Book<S>,
    first: Option<Day>,
    last: Option<Day>,
) -> Result<Counted, ShowFault>
    ensures { Reads S.Store book.old book.new
        (λ place entries counted. HasCounted (first, last) (entry_rows 1 entries) counted)
        (λ tables counted. HasCounted (first, last) tables.entry counted)
        (λ counted. (rows : List EntryRowOf) × HasCounted (first, last) rows counted)
        (λ entries. ⊥) result }
{
    let mut counted = Counted::new(first, last);
    let mut walk = book.journal();
    gather(&mut walk, &mut counted)?;
    Ok(counted)
}

/// The keys of the tables.
const BY_YEAR: &[GainKey] = &[GainKey::Year];

const BY_COMMODITY: &[GainKey] = &[GainKey::Commodity];

const IN_ALL: &[GainKey] = &[];

/// What sales gained, in each currency.
#[derive(Drop)]
pub(crate) struct SalesTally<'a> {
    pub years: GainsTable<'a>,
    pub commodities: GainsTable<'a>,
    /// In all.
    pub currencies: GainsTable<'a>,
}

impl SalesTally<'static> {
    /// The tables before the first sale. They take no memory.
    fn new(alloc: Global) -> SalesTally<'static>
        ensures { HasSales tt [] result }
    {
        SalesTally {
            years: GainsTable::new(alloc, BY_YEAR, TableForm::Csv),
            commodities: GainsTable::new(alloc, BY_COMMODITY, TableForm::Csv),
            currencies: GainsTable::new(alloc, IN_ALL, TableForm::Csv),
        }
    }
}

impl Tally<NumberedSale> for SalesTally<'_> {
    ghost Terms = { Unit {0} };

    ghost Told = { SaleParts };

    ghost told = { sale_in };

    ghost fits = { all_fit };

    ghost HasTaken = { HasSales };

    ghost AreLines = { λ _ _ lines. lines ≡ [] };

    fn take(&mut self, sold: NumberedSale) -> Result<(), ReportFault> {
        self.years.add(&sold.sale)?;
        self.commodities.add(&sold.sale)?;
        self.currencies.add(&sold.sale)
    }
}

/// Adds the sales of a range up. The fault is `Range` of the report where a sum leaves its range.
pub(crate) fn read_sales<S: Alter>(
    alloc: Global,
    book: &mut Book<S>,
    first: Option<Day>,
    last: Option<Day>,
) -> Result<SalesTally<'static>, ShowFault>
    ensures { Reads S.Store book.old book.new
        (λ place entries tally. (sales : List NumberedSaleOf)
        × AreSalesWithin (first, last) entries sales × HasSales tt (map sale_in sales) tally)
        (λ tables tally. (sales : List NumberedSaleOf)
        × AreAllSaleRows (first, last) tables sales × HasSales tt (map sale_in sales) tally)
        (λ tally. Unit {0})
        (λ entries. (sales : List NumberedSaleOf) × AreSalesWithin (first, last) entries sales
        × HasUnfit (all_fit tt) (map sale_in sales)) result }
{
    let mut tally = SalesTally::new(alloc);
    let mut walk = book.gains(first, last);
    gather(&mut walk, &mut tally)?;
    Ok(tally)
}

/// What positions hold at the end of a day, and what went into lots in each of some months.
#[derive(Drop)]
pub(crate) struct LegTally {
    pub positions: Positions,
    pub flows: Option<MonthFlows>,
    /// Whether a sum over a month has left its range.
    pub is_out: bool,
}

impl LegTally {
    /// What there is before the first leg. It takes no memory.
    fn new(alloc: Global, day: Day, range: Option<MonthRange>) -> LegTally
        ensures { HasLegs (day, range) [] result }
    {
        LegTally {
            positions: Positions::new(alloc, day),
            flows: no_flows(alloc, range),
            is_out: false,
        }
    }
}

/// Returns the flows in some months before the first leg.
fn no_flows(alloc: Global, range: Option<MonthRange>) -> Option<MonthFlows>
    ensures { FlowsOf range [] result }
{
    match range {
        Some(range) => Some(MonthFlows::new(alloc, range)),
        None => None,
    }
}

impl Tally<DatedLeg> for LegTally {
    // The day, and the months.
    ghost Terms = { Asked };

    ghost Told = { DatedLegOf };

    ghost told = { λ leg. leg };

    ghost fits = { λ _ _ _. true };

    ghost HasTaken = { HasLegs };

    ghost AreLines = { λ _ _ lines. lines ≡ [] };

    fn take(&mut self, leg: DatedLeg) -> Result<(), ReportFault> {
        let fits = add_flow(&mut self.flows, &leg)?;
        self.positions.add(leg)?;
        self.is_out = out_with(self.is_out, fits);
        Ok(())
    }
}

/// Returns whether some sum has left its range, with those of one more leg.
fn out_with(is_out: bool, fits: bool) -> bool
    ensures { result ≡ (is_out || not fits) }
{
    is_out || !fits
}

/// Adds a leg to flows, and returns whether all sums stay in their range. The only error is out of
/// memory.
fn add_flow(flows: &mut Option<MonthFlows>, leg: &DatedLeg) -> Result<bool, ReportFault>
    ensures adds { IfOk result (λ fits. fits ≡ true
        → (range : Option MonthRangeOf) (legs : List DatedLegOf) → FlowsOf range legs flows.old
        → FlowsOf range (legs ++ leg.now ∷ []) flows.new) }
    ensures out { IfOk result (λ fits. fits ≡ false
        → (range : Option MonthRangeOf) (legs : List DatedLegOf) → FlowsOf range legs flows.old
        → MoveTooMuch range (legs ++ leg.now ∷ [])) }
    ensures cause { IfErr result (λ fault. fault ≡ Memory) }
{
    let Some(flows) = flows else {
        return Ok(true);
    };
    match flows.add(leg) {
        Ok(()) => Ok(true),
        Err(ReportFault::Range) => Ok(false),
        Err(_) => Err(ReportFault::Memory),
    }
}

/// Adds the legs of a book up. The fault is `Range` of the report where a sum leaves its range.
pub(crate) fn read_legs<S: Alter>(
    alloc: Global,
    book: &mut Book<S>,
    day: Day,
    range: Option<MonthRange>,
) -> Result<LegTally, ShowFault>
    ensures { Reads S.Store book.old book.new
        (λ place entries tally. HasAllLegs (day, range) (dated_legs entries) tally)
        (λ tables tally. (legs : List DatedLegOf) × AreAllLegRows tt tables legs
        × HasAllLegs (day, range) legs tally)
        (λ tally. (legs : List DatedLegOf) × HasAllLegs (day, range) legs tally)
        (λ entries. MoveTooMuch range (dated_legs entries)) result }
{
    let mut tally = LegTally::new(alloc, day, range);
    let mut walk = book.legs();
    gather(&mut walk, &mut tally)?;
    if tally.is_out {
        return Err(ShowFault::Row(RowFault::Report(ReportFault::Range)));
    }
    Ok(tally)
}

/// The last price of each pair in each month.
#[derive(Drop)]
struct QuoteTally {
    prices: MonthPrices,
}

impl Tally<PriceRow> for QuoteTally {
    ghost Terms = { MonthRangeOf };

    ghost Told = { PriceRowOf };

    ghost told = { λ row. row };

    ghost fits = { λ _ _ _. true };

    ghost HasTaken = { HasQuotes };

    ghost AreLines = { λ _ _ lines. lines ≡ [] };

    fn take(&mut self, row: PriceRow) -> Result<(), ReportFault> {
        self.prices.add(row)
    }
}

/// Reads the last price of each pair in each month, where there are months, of a book that needs no
/// reopening.
pub(crate) fn read_quotes<S: Alter>(
    alloc: Global,
    book: &mut Book<S>,
    range: Option<MonthRange>,
) -> Result<Option<MonthPrices>, ShowFault>
    ensures { book.old.condition ≢ NeedsReopen → Reads S.Store book.old book.new
        (λ place entries prices. (quotes : List PriceRowOf) × AreQuotes tt entries quotes
        × PricesOf range quotes prices)
        (λ tables prices. (quotes : List PriceRowOf) × AreQuoteRows tt tables quotes
        × PricesOf range quotes prices)
        (λ prices. (quotes : List PriceRowOf) × PricesOf range quotes prices)
        (λ entries. ⊥) result }
{
    match range {
        Some(range) => Ok(Some(read_some_quotes(alloc, book, range)?)),
        None => Ok(None),
    }
}

/// Reads the last price of each pair in each month.
fn read_some_quotes<S: Alter>(
    alloc: Global,
    book: &mut Book<S>,
    range: MonthRange,
) -> Result<MonthPrices, ShowFault>
    ensures { Reads S.Store book.old book.new
        (λ place entries prices. (quotes : List PriceRowOf) × AreQuotes tt entries quotes
        × HasPrices range quotes prices)
        (λ tables prices. (quotes : List PriceRowOf) × AreQuoteRows tt tables quotes
        × HasPrices range quotes prices)
        (λ prices. (quotes : List PriceRowOf) × HasPrices range quotes prices)
        (λ entries. ⊥) result }
{
    let mut tally = QuoteTally {
        prices: MonthPrices::new(alloc, range),
    };
    let mut walk = book.walk_from(QuotesPlace::new(alloc));
    gather(&mut walk, &mut tally)?;
    Ok(tally.prices)
}
