ghost use Rattle.std.specs.Prelude.{◌≡◌, ◌↔◌, List, [], ℕ, Option, option_map, ◌≢◌, IfErr, IsErr, IsErrOf, IsFalse, IsTrue, OnOk};
ghost use Rattle.std.specs.Io.KnownBytes.{Appends};
ghost use Rattle.lot_book.specs.Gain.{currency_of};
ghost use Rattle.lot_book.specs.Sale.{SaleParts};
ghost use Rattle.lot_report.specs.Gains.{CountsSale, EndsGains, GrowsBySale, HasTaken, IsFed, TakesSale, end_lines, gained, is_spent, leg_line, priced_line, sale_line, sale_lines, sales_text, unpriced_line};
ghost use Rattle.lot_io.specs.Writes.{HasFailed, NoneFailed};
ghost use Rattle.lot_report.specs.Written.{WritesEach, WritesLine};

use crate::fault::{ReportFault, RowFault};
use crate::line::{PrintFault, print_line};
use crate::lot::{Valuation, print_lot};
use crate::totals::Totals;
use lot_base::Commodity;
use lot_book::{Gain, Sale};
use lot_command::Price;
use lot_io::CountedWrite;
use std::alloc::Global;
use std::fmt;

/// The report of gains. It takes sales one after another, and writes each with its legs behind those before it.
///
/// After a fault nothing more is written, and each call returns `Spent`.
#[derive(Drop)]
pub struct Gains {
    /// None after a fault.
    progress: Option<GainSums>,
}

impl Gains {
    /// The report before its first sale. It takes no memory.
    pub fn new(alloc: Global) -> Gains
        ensures fed { IsFed [] result }
        ensures spent { IsFalse (is_spent result) }
    {
        Gains {
            progress: Some(GainSums::new(alloc)),
        }
    }

    /// Writes one sale: its line and those of its legs. The error is one of these:
    ///
    /// - `Range`: its gain takes a total out of the range of weights. Nothing of the sale is written.
    /// - `Memory`: out of memory. Whole lines of the sale are written, but not all.
    /// - `Write`: the writer fails. A prefix of the sale's lines is written, but not all of them.
    /// - `Spent`: an earlier call had such a fault. Nothing is written.
    pub fn row<W: CountedWrite>(&mut self, sale: &Sale, writer: &mut W) -> Result<(), RowFault>
        ensures text { (sales : List SaleParts) (start : Option (List ℕ)) → IsFed sales self.old
            → Appends start (W.contents writer.old) (sales_text sales)
            → GrowsBySale sales sale.now self.new start (W.contents writer.new) result }
        ensures cause { IsErrOf result (RowFault.Report ReportFault.Write)
            → HasFailed (W.calls writer.new) }
        ensures none_failed { OnOk result (NoneFailed (W.calls writer.old) (W.calls writer.new)) }
        ensures spent { IsErrOf result RowFault.Spent ↔ IsTrue (is_spent self.old) }
        ensures after { IsErr result ↔ IsTrue (is_spent self.new) }
    {
        let Some(mut progress) = self.progress.take() else {
            return Err(RowFault::Spent);
        };
        progress.row(sale, writer)?;
        self.progress = Some(progress);
        Ok(())
    }

    /// Writes the totals, in the order of the bytes of their currencies. Where there was no sale, it writes that there are no
    /// gains. The error is one of these:
    ///
    /// - `Memory`: out of memory. Whole lines are written, but not all.
    /// - `Write`: the writer fails. A prefix of the lines is written, but not all of them.
    /// - `Spent`: a call of `row` had a fault. Nothing is written.
    pub fn end<W: CountedWrite>(self, writer: &mut W) -> Result<(), RowFault>
        ensures text { (sales : List SaleParts) (start : Option (List ℕ)) → IsFed sales self
            → Appends start (W.contents writer.old) (sales_text sales)
            → EndsGains sales start (W.contents writer.new) result }
        ensures cause { IsErrOf result (RowFault.Report ReportFault.Write)
            → HasFailed (W.calls writer.new) }
        ensures none_failed { OnOk result (NoneFailed (W.calls writer.old) (W.calls writer.new)) }
        ensures spent { IsErrOf result RowFault.Spent ↔ IsTrue (is_spent self) }
    {
        let Some(progress) = &self.progress else {
            return Err(RowFault::Spent);
        };
        match progress.end(writer) {
            Ok(()) => Ok(()),
            Err(fault) => Err(RowFault::Report(ReportFault::from(fault))),
        }
    }
}

/// What the sales so far come to.
#[derive(Drop)]
struct GainSums {
    alloc: Global,
    is_empty: bool,
    gains: Totals,
}

impl GainSums {
    /// Before the first sale.
    fn new(alloc: Global) -> GainSums
        ensures { HasTaken [] result }
    {
        GainSums {
            alloc,
            is_empty: true,
            gains: Totals::new(alloc),
        }
    }

    /// Takes and writes one sale.
    fn row<W: CountedWrite>(&mut self, sale: &Sale, writer: &mut W) -> Result<(), ReportFault>
        ensures takes { (sales : List SaleParts) → HasTaken sales self.old
            → TakesSale sales sale.now self.new (W.contents writer.old)
            (W.contents writer.new) result }
        ensures cause { IsErrOf result ReportFault.Write → HasFailed (W.calls writer.new) }
        ensures none_failed { OnOk result (NoneFailed (W.calls writer.old) (W.calls writer.new)) }
    {
        self.take_gain(sale)?;
        print_sale(self.alloc, writer, sale)?;
        Ok(())
    }

    /// Adds the gain of one more sale; an unpriced one has none.
    fn take_gain(&mut self, sale: &Sale) -> Result<(), ReportFault>
        ensures counts { (sales : List SaleParts) → HasTaken sales self.old
            → CountsSale sales sale.now self.new result }
        ensures cause { IfErr result (λ fault. fault ≢ ReportFault.Write) }
    {
        self.is_empty = false;
        match priced(sale) {
            Some((currency, gain)) => self.gains.add(currency, gain.gain),
            None => Ok(()),
        }
    }

    /// Writes what stands behind the sales.
    fn end<W: CountedWrite>(&self, writer: &mut W) -> Result<(), PrintFault>
        ensures lines { WritesEach (λ text. text) (end_lines self.now.is_empty
            self.now.gains.sums.entries) (W.contents writer.old) (W.contents writer.new) result }
        ensures cause { IsErrOf result PrintFault.Write → HasFailed (W.calls writer.new) }
        ensures none_failed { OnOk result (NoneFailed (W.calls writer.old) (W.calls writer.new)) }
    {
        if self.is_empty {
            return print_line(writer, "no gains");
        }
        self.gains.print(self.alloc, writer, "gain")
    }
}

/// Returns the gain of a sale with the currency of its price, or `None` where the sale is unpriced.
fn priced(sale: &Sale) -> Option<(&Commodity, Gain)>
    ensures { option_map (λ priced. (priced.0.now, priced.1)) result ≡ gained sale.now }
{
    let price = sale.price()?;
    let gain = sale.gain()?;
    Some((currency_of(price), gain))
}

/// Returns the currency of a price.
fn currency_of(price: &Price) -> &Commodity
    ensures { result.now ≡ currency_of price.now }
{
    match price {
        Price::Each(price) => &price.currency,
        Price::Whole(price) => price.currency(),
    }
}

fn print_sale<W: CountedWrite>(alloc: Global, writer: &mut W, sale: &Sale) -> Result<(), PrintFault>
    ensures lines { WritesEach (λ text. text) (sale_lines sale.now) (W.contents writer.old)
        (W.contents writer.new) result }
    ensures cause { IsErrOf result PrintFault.Write → HasFailed (W.calls writer.new) }
    ensures none_failed { OnOk result (NoneFailed (W.calls writer.old) (W.calls writer.new)) }
{
    print_front(alloc, writer, sale)?;
    print_legs(alloc, writer, sale)
}

/// Writes the line of a sale, above those of its legs.
fn print_front<W: CountedWrite>(
    alloc: Global,
    writer: &mut W,
    sale: &Sale,
) -> Result<(), PrintFault>
    ensures line { WritesLine (W.contents writer.old) (W.contents writer.new) result
        (sale_line sale.now (gained sale.now)) }
    ensures cause { IsErrOf result PrintFault.Write → HasFailed (W.calls writer.new) }
    ensures none_failed { OnOk result (NoneFailed (W.calls writer.old) (W.calls writer.new)) }
{
    match priced(sale) {
        Some((currency, gain)) => print_priced(alloc, writer, sale, currency, gain),
        None => print_unpriced(alloc, writer, sale),
    }
}

#[tactic(auto, using(crate::proofs::PrintLemmas::nothing_written, crate::proofs::OutputLemmas::not_of_writer))]
fn print_priced<W: CountedWrite>(
    alloc: Global,
    writer: &mut W,
    sale: &Sale,
    currency: &Commodity,
    gain: Gain,
) -> Result<(), PrintFault>
    ensures line { WritesLine (W.contents writer.old) (W.contents writer.new) result
        (priced_line sale.now currency.now gain) }
    ensures cause { IsErrOf result PrintFault.Write → HasFailed (W.calls writer.new) }
    ensures none_failed { OnOk result (NoneFailed (W.calls writer.old) (W.calls writer.new)) }
{
    let units = sale.units().text(alloc)?;
    let front = SaleFront {
        units: units.as_str(),
        sale,
    };
    let proceeds = gain.proceeds.text_money(alloc)?;
    let cost = gain.cost.text_money(alloc)?;
    let gain = gain.gain.text_money(alloc)?;
    print_line(
        writer,
        format_args!("{front} proceeds {proceeds} cost {cost} gain {gain} {currency}"),
    )
}

#[tactic(auto, using(crate::proofs::PrintLemmas::nothing_written, crate::proofs::OutputLemmas::not_of_writer))]
fn print_unpriced<W: CountedWrite>(
    alloc: Global,
    writer: &mut W,
    sale: &Sale,
) -> Result<(), PrintFault>
    ensures line { WritesLine (W.contents writer.old) (W.contents writer.new) result
        (unpriced_line sale.now) }
    ensures cause { IsErrOf result PrintFault.Write → HasFailed (W.calls writer.new) }
    ensures none_failed { OnOk result (NoneFailed (W.calls writer.old) (W.calls writer.new)) }
{
    let units = sale.units().text(alloc)?;
    let front = SaleFront {
        units: units.as_str(),
        sale,
    };
    print_line(writer, format_args!("{front} unpriced"))
}

/// What the line of a sale begins with, with the text of its units.
#[derive(Clone, Copy)]
struct SaleFront<'a> {
    units: &'a str,
    sale: &'a Sale,
}

impl fmt::Display for SaleFront<'_> {
    ghost use Rattle.std.specs.Prelude.{Some};
    ghost use Rattle.lot_report.specs.Gains.{front_with};

    ghost output = { λ front. Some (front_with front.units.now front.sale.now) };

    fn fmt<W: fmt::Write>(&self, f: &mut fmt::Formatter<W>) -> fmt::Result {
        let day = self.sale.day();
        let account = self.sale.account();
        let units = self.units;
        let commodity = self.sale.commodity();
        write!(f, "{day} {account} {units} {commodity}")
    }
}

/// Writes the legs of a sale, in the order in which the lots were taken: each in the line of a lot, two spaces in.
fn print_legs<W: CountedWrite>(alloc: Global, writer: &mut W, sale: &Sale) -> Result<(), PrintFault>
    ensures lines { WritesEach (leg_line sale.now.commodity) sale.now.legs (W.contents writer.old)
        (W.contents writer.new) result }
    ensures cause { IsErrOf result PrintFault.Write → HasFailed (W.calls writer.new) }
    ensures none_failed { OnOk result (NoneFailed (W.calls writer.old) (W.calls writer.new)) }
{
    let commodity = sale.commodity();
    let legs = sale.legs();
    for (lot, units) in legs {
        print_lot(
            alloc,
            writer,
            " ",
            *units,
            commodity,
            lot,
            Valuation::Unasked,
        )?;
    }
    Ok(())
}
