ghost use Rattle.std.specs.Prelude.{◌≡◌, ◌&&◌, ◌++◌, ◌∷◌, [], List, IfErr, IfOk, IsErrOf, OnOk, map, option_map};
ghost use Rattle.std.specs.BTreeMap.{insert_entry};
ghost use Rattle.std.specs.String.{string_bytes};
ghost use Rattle.lot_book.specs.Gain.{currency_of};
ghost use Rattle.lot_book.specs.Sale.{SaleParts};
ghost use Rattle.lot_io.specs.Writes.{HasFailed, NoneFailed};
ghost use Rattle.lot_report.specs.Gains as gains;
ghost use Rattle.lot_report.specs.Gains.{gained};
ghost use Rattle.lot_report.specs.Written.{WritesEach};
ghost use Rattle.lot_tally.specs.Lots.{CountedLot, row_of, sale_lots};
ghost use Rattle.lot_tally.specs.Rows.{Adds, AddsFitting, lot_fits, lots_fit};
ghost use Rattle.lot_tally.specs.Table.{HasCounted, HasRows, header, kept_cmp, row_text, shown, table_lines, text_lines};
ghost use Rattle.lot_tally.specs.declared.key.TableForm.TheVariants.{Csv};

use crate::key::{GainKey, TableForm, keys_text};
use crate::sums::RowSums;
use crate::text::{print_header, print_row};
use crate::totals::Totals;
use lot_base::Commodity;
use lot_book::{Gain, LotKey, Sale};
use lot_command::Price;
use lot_csv::{lot_cost, lot_gains};
use lot_io::CountedWrite;
use lot_num::Wide;
use lot_report::{PrintFault, ReportFault, print_line};
use std::alloc::{AllocError, Global};
use std::collections::BTreeMap;

/// What tells a row from others: the text of its keys, and its currency.
pub type RowKey = (String, Commodity);

/// The rows, in the order of their keys.
pub(crate) type Rows = BTreeMap<RowKey, RowSums>;

/// What the sales so far come to.
#[derive(Drop)]
pub(crate) struct Counted {
    rows: Rows,
    totals: Totals,
}

impl Counted {
    /// Before the first sale.
    pub fn new(alloc: Global) -> Counted
        ensures { HasCounted [] [] result }
    {
        Counted {
            rows: BTreeMap::new(alloc),
            totals: Totals::new(alloc),
        }
    }

    /// Returns the rows.
    pub fn rows(&self) -> &Rows
        ensures { result.now ≡ self.now.rows }
    {
        &self.rows
    }

    /// Adds the lots of a sale to their rows, and its gain, if it has one, to the total in its
    /// currency. Returns `Range` where a sum leaves its range.
    pub fn add(
        &mut self,
        alloc: Global,
        by: &[GainKey],
        form: TableForm,
        sale: &Sale,
    ) -> Result<(), ReportFault>
        ensures { (lots : List CountedLot) (sales : List SaleParts) → HasCounted lots sales self.old
            → Adds (lots_fit lots (sale_lots by.now form sale.now) && gains.fits sales sale.now)
            (HasCounted (lots ++ sale_lots by.now form sale.now) (sales ++ sale.now ∷ [])
            self.new) result }
    {
        add_lots(&mut self.rows, alloc, by, form, sale)?;
        match priced(sale) {
            Some((currency, gain)) => self.totals.add(currency, gain.gain),
            None => Ok(()),
        }
    }

    /// Writes the table.
    pub fn print<W: CountedWrite>(
        &self,
        alloc: Global,
        by: &[GainKey],
        form: TableForm,
        writer: &mut W,
    ) -> Result<(), PrintFault>
        ensures lines { WritesEach (λ text. text)
            (table_lines by.now form (map shown self.now.rows.entries)
            self.now.totals.sums.entries)
            (W.contents writer.old) (W.contents writer.new) result }
        ensures cause { IsErrOf result PrintFault.Write → HasFailed (W.calls writer.new) }
        ensures none_failed { OnOk result
            (NoneFailed (W.calls writer.old) (W.calls writer.new)) }
    {
        match form {
            TableForm::Text => self.print_lines(alloc, writer),
            TableForm::Csv => self.print_records(alloc, by, writer),
        }
    }

    /// Writes the table as text: the rows, and the totals behind them; or that there are no gains.
    fn print_lines<W: CountedWrite>(&self, alloc: Global, writer: &mut W) -> Result<(), PrintFault>
        ensures lines { WritesEach (λ text. text)
            (text_lines (map shown self.now.rows.entries) self.now.totals.sums.entries)
            (W.contents writer.old) (W.contents writer.new) result }
        ensures cause { IsErrOf result PrintFault.Write → HasFailed (W.calls writer.new) }
        ensures none_failed { OnOk result
            (NoneFailed (W.calls writer.old) (W.calls writer.new)) }
    {
        if self.rows.is_empty() {
            return print_line(writer, "no gains");
        }
        print_rows(alloc, writer, TableForm::Text, &self.rows)?;
        self.totals.print(alloc, writer)
    }

    /// Writes the table as CSV: the names of the columns, and the rows.
    fn print_records<W: CountedWrite>(
        &self,
        alloc: Global,
        by: &[GainKey],
        writer: &mut W,
    ) -> Result<(), PrintFault>
        ensures lines { WritesEach (λ text. text)
            (header by.now ∷ map (row_text Csv) (map shown self.now.rows.entries))
            (W.contents writer.old) (W.contents writer.new) result }
        ensures cause { IsErrOf result PrintFault.Write → HasFailed (W.calls writer.new) }
        ensures none_failed { OnOk result
            (NoneFailed (W.calls writer.old) (W.calls writer.new)) }
    {
        print_header(alloc, writer, by)?;
        print_rows(alloc, writer, TableForm::Csv, &self.rows)
    }
}

/// Adds the lots of a sale to their rows.
fn add_lots(
    rows: &mut Rows,
    alloc: Global,
    by: &[GainKey],
    form: TableForm,
    sale: &Sale,
) -> Result<(), ReportFault>
    ensures { (lots : List CountedLot) → HasRows lots rows.old
        → Adds (lots_fit lots (sale_lots by.now form sale.now))
        (HasRows (lots ++ sale_lots by.now form sale.now) rows.new) result }
{
    let legs = sale.legs();
    let gains = lot_gains(alloc, sale)?;
    for (leg, gain) in legs.iter().zip(&gains) {
        let key = row_of(alloc, by, form, sale, &leg.0)?;
        add_lot(rows, key, lot_cost(leg), *gain)?;
    }
    Ok(())
}

/// Returns what tells the row of a lot from others. The only error is out of memory.
fn row_of(
    alloc: Global,
    by: &[GainKey],
    form: TableForm,
    sale: &Sale,
    lot: &LotKey,
) -> Result<RowKey, AllocError>
    ensures { IfOk result (λ key.
        (string_bytes key.0, key.1) ≡ row_of by.now form sale.now lot.now) }
{
    let text = keys_text(alloc, by, form, sale, lot)?;
    Ok((text, lot.currency.copy()?))
}

/// Adds a lot to its row: what it cost, and what it gained where its sale is priced. The error is
/// `Range` where a sum of the row leaves its range, else `Memory`.
fn add_lot(rows: &mut Rows, key: RowKey, cost: Wide, gain: Option<Gain>) -> Result<(), ReportFault>
    ensures { (lots : List CountedLot) (lot : CountedLot)
        → lot ≡ record { row = (string_bytes key.0, key.1); cost = cost; gain = gain }
        → HasRows lots rows.old
        → AddsFitting (lot_fits lots lot) (HasRows (lots ++ lot ∷ []) rows.new) result }
{
    let sums = rows.get(&key).copied().unwrap_or(RowSums::none());
    match sums.with(cost, gain) {
        Some(sums) => set_row(rows, key, sums),
        None => Err(ReportFault::Range),
    }
}

/// Sets the sums of a row. The only error is out of memory.
fn set_row(rows: &mut Rows, key: RowKey, sums: RowSums) -> Result<(), ReportFault>
    ensures entries { OnOk result
        (rows.new.entries ≡ insert_entry kept_cmp rows.old.entries key sums) }
    ensures cause { IfErr result (λ fault. fault ≡ ReportFault.Memory) }
{
    rows.insert(key, sums)?;
    Ok(())
}

/// Writes rows, each with its lines.
fn print_rows<W: CountedWrite>(
    alloc: Global,
    writer: &mut W,
    form: TableForm,
    rows: &Rows,
) -> Result<(), PrintFault>
    ensures rows { WritesEach (λ row. row_text form (shown row)) rows.now.entries
        (W.contents writer.old) (W.contents writer.new) result }
    ensures cause { IsErrOf result PrintFault.Write → HasFailed (W.calls writer.new) }
    ensures none_failed { OnOk result (NoneFailed (W.calls writer.old) (W.calls writer.new)) }
{
    for (key, sums) in rows {
        print_row(alloc, writer, form, key, sums)?;
    }
    Ok(())
}

/// Returns the gain of a sale with the currency of its price, or `None` where the sale is unpriced.
fn priced(sale: &Sale) -> Option<(&Commodity, Gain)>
    ensures { option_map (λ priced. (priced.0.now, priced.1)) result ≡ gained sale.now }
{
    let price = sale.price()?;
    let gain = sale.gain()?;
    Some((currency_of(price), gain))
}

/// Returns the currency of a price.
fn currency_of(price: &Price) -> &Commodity
    ensures { result.now ≡ currency_of price.now }
{
    match price {
        Price::Each(price) => &price.currency,
        Price::Whole(price) => price.currency(),
    }
}
