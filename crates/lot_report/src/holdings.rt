ghost use Rattle.std.specs.Prelude.{◌≡◌, ◌↔◌, List, [], ◌∷◌, ℕ, ℤ, ◌≢◌, Option, Some, IfErr, IsErr, IsErrOf, IsFalse, IsTrue, OnOk};
ghost use Rattle.std.specs.Io.KnownBytes.{Appends};
ghost use Rattle.lot_report.specs.declared.holdings.ValuedHolding.{ValuedHolding as Row};
ghost use Rattle.lot_report.specs.Holdings.{CountsBoth, CountsHolding, EndsHoldings, GrowsByHolding, HasTaken, IsFed, TakesHolding, cost_of, WritesReport, end_lines, holding_row, is_spent, rows_text, unvalued, value_at};
ghost use Rattle.lot_io.specs.Writes.{HasFailed, NoneFailed};
ghost use Rattle.lot_report.specs.Printed.{plain_row};
ghost use Rattle.lot_report.specs.Report.{AreSums};
ghost use Rattle.lot_report.specs.Written.{WritesEach, WritesLine};

use crate::fault::{ReportFault, RowFault};
use crate::line::{PrintFault, print_line};
use crate::lot::{Valuation, print_lot};
use crate::totals::Totals;
use lot_base::Commodity;
use lot_book::{Holding, LotKey};
use lot_io::CountedWrite;
use lot_num::{Rate, Units, Wide, weight};
use std::alloc::Global;

/// A row of the report of what is held: what one position holds, and the price at which it is valued. The valuation of plain
/// units is ignored.
#[derive(Debug, Drop)]
pub struct ValuedHolding {
    pub holding: Holding,
    pub valuation: Valuation,
}

/// The report of what is held. It takes rows one after another, and writes each behind those before it.
///
/// After a fault nothing more is written, and each call returns `Spent`.
#[derive(Drop)]
pub struct Holdings {
    /// None after a fault.
    progress: Option<HoldingSums>,
}

impl Holdings {
    /// The report before its first row. It takes no memory.
    pub fn new(alloc: Global) -> Holdings
        ensures fed { IsFed [] result }
        ensures spent { IsFalse (is_spent result) }
    {
        Holdings {
            progress: Some(HoldingSums::new(alloc)),
        }
    }

    /// Writes one row: its line, with the value of a lot where one is asked for. The error is one of these:
    ///
    /// - `Range`: it takes the total of the costs or of the values out of the range of weights. Nothing of the row is written.
    /// - `Memory`: out of memory. Nothing of the row is written.
    /// - `Write`: the writer fails. A prefix of the line is written, but not all of it.
    /// - `Spent`: an earlier call had such a fault. Nothing is written.
    pub fn row<W: CountedWrite>(
        &mut self,
        row: &ValuedHolding,
        writer: &mut W,
    ) -> Result<(), RowFault>
        ensures text { (rows : List Row) (start : Option (List ℕ)) → IsFed rows self.old
            → Appends start (W.contents writer.old) (rows_text rows)
            → GrowsByHolding rows row.now self.new start (W.contents writer.new) result }
        ensures cause { IsErrOf result (RowFault.Report ReportFault.Write)
            → HasFailed (W.calls writer.new) }
        ensures none_failed { OnOk result (NoneFailed (W.calls writer.old) (W.calls writer.new)) }
        ensures spent { IsErrOf result RowFault.Spent ↔ IsTrue (is_spent self.old) }
        ensures after { IsErr result ↔ IsTrue (is_spent self.new) }
    {
        let Some(mut progress) = self.progress.take() else {
            return Err(RowFault::Spent);
        };
        progress.row(row, writer)?;
        self.progress = Some(progress);
        Ok(())
    }

    /// Writes the totals, in the order of the bytes of their currencies: those of the costs, then those of the values. Where
    /// there was no row, it writes that nothing is held. The error is one of these:
    ///
    /// - `Memory`: out of memory. Whole lines are written, but not all.
    /// - `Write`: the writer fails. A prefix of the lines is written, but not all of them.
    /// - `Spent`: a call of `row` had a fault. Nothing is written.
    pub fn end<W: CountedWrite>(self, writer: &mut W) -> Result<(), RowFault>
        ensures text { (rows : List Row) (start : Option (List ℕ)) → IsFed rows self
            → Appends start (W.contents writer.old) (rows_text rows)
            → EndsHoldings rows start (W.contents writer.new) result }
        ensures cause { IsErrOf result (RowFault.Report ReportFault.Write)
            → HasFailed (W.calls writer.new) }
        ensures none_failed { OnOk result (NoneFailed (W.calls writer.old) (W.calls writer.new)) }
        ensures spent { IsErrOf result RowFault.Spent ↔ IsTrue (is_spent self) }
    {
        let Some(progress) = &self.progress else {
            return Err(RowFault::Spent);
        };
        match progress.end(writer) {
            Ok(()) => Ok(()),
            Err(fault) => Err(RowFault::Report(ReportFault::from(fault))),
        }
    }
}

/// Writes the report of what is held, without values: a line for each row, in the order in which they are given, then what the
/// lots cost in each currency.
///
/// Returns `Range` at the first row that takes a total out of the range of weights: the rows before it are written, and no
/// total. Returns `Memory` where there is no memory for a line or a total: whole lines of the report are written. Returns
/// `Write` where the writer fails: a prefix of the report is written, but not all of it.
pub fn print_holdings<W: CountedWrite>(
    alloc: Global,
    rows: Vec<Holding>,
    writer: &mut W,
) -> Result<(), ReportFault>
    ensures report { WritesReport (unvalued rows.items) (W.contents writer.old)
        (W.contents writer.new) result }
    ensures cause { IsErrOf result ReportFault.Write → HasFailed (W.calls writer.new) }
    ensures none_failed { OnOk result (NoneFailed (W.calls writer.old) (W.calls writer.new)) }
{
    let mut progress = HoldingSums::new(alloc);
    for holding in rows {
        let row = ValuedHolding {
            holding,
            valuation: Valuation::Unasked,
        };
        progress.row(&row, writer)?;
    }
    Ok(progress.end(writer)?)
}

/// What the rows so far come to.
#[derive(Drop)]
struct HoldingSums {
    alloc: Global,
    is_empty: bool,
    costs: Totals,
    values: Totals,
}

impl HoldingSums {
    /// Before the first row.
    fn new(alloc: Global) -> HoldingSums
        ensures { HasTaken [] result }
    {
        HoldingSums {
            alloc,
            is_empty: true,
            costs: Totals::new(alloc),
            values: Totals::new(alloc),
        }
    }

    /// Takes and writes one row.
    fn row<W: CountedWrite>(
        &mut self,
        row: &ValuedHolding,
        writer: &mut W,
    ) -> Result<(), ReportFault>
        ensures takes { (rows : List Row) → HasTaken rows self.old
            → TakesHolding rows row.now self.new (W.contents writer.old)
            (W.contents writer.new) result }
        ensures cause { IsErrOf result ReportFault.Write → HasFailed (W.calls writer.new) }
        ensures none_failed { OnOk result (NoneFailed (W.calls writer.old) (W.calls writer.new)) }
    {
        self.count(row)?;
        print_row(self.alloc, writer, row)?;
        Ok(())
    }

    /// Adds the cost and the value of one more row. Plain units have neither.
    fn count(&mut self, row: &ValuedHolding) -> Result<(), ReportFault>
        ensures counts { (rows : List Row) → HasTaken rows self.old
            → CountsHolding rows row.now self.new result }
        ensures cause { IfErr result (λ fault. fault ≢ ReportFault.Write) }
    {
        self.is_empty = false;
        match &row.holding.lot {
            Some(lot) => self.count_lot(lot, row.holding.units, row.valuation.price()),
            None => Ok(()),
        }
    }

    /// Adds what units of a lot cost, and what they are worth at a price.
    fn count_lot(
        &mut self,
        lot: &LotKey,
        units: Units,
        price: Option<Rate>,
    ) -> Result<(), ReportFault>
        ensures sums { (costs values : List (List ℕ × ℤ))
            → AreSums costs self.old.costs.sums.entries
            → AreSums values self.old.values.sums.entries
            → CountsBoth costs values (cost_of (Some lot.now) units)
            (value_at price lot.now units) self.new.costs self.new.values result }
        ensures rest { self.new.is_empty ≡ self.old.is_empty }
        ensures cause { IfErr result (λ fault. fault ≢ ReportFault.Write) }
    {
        let cost = weight(units, lot.number);
        match price {
            Some(price) => self.add_both(&lot.currency, cost, weight(units, price)),
            None => self.costs.add(&lot.currency, cost),
        }
    }

    /// Adds a cost and a value in a currency.
    fn add_both(&mut self, currency: &Commodity, cost: Wide, value: Wide) -> Result<(), ReportFault>
        ensures sums { (costs values : List (List ℕ × ℤ))
            → AreSums costs self.old.costs.sums.entries
            → AreSums values self.old.values.sums.entries
            → CountsBoth costs values ((currency.now, cost) ∷ [])
            ((currency.now, value) ∷ []) self.new.costs self.new.values result }
        ensures rest { self.new.is_empty ≡ self.old.is_empty }
        ensures cause { IfErr result (λ fault. fault ≢ ReportFault.Write) }
    {
        let Some(cost) = self.costs.sum_with(currency, cost) else {
            return Err(ReportFault::Range);
        };
        let Some(value) = self.values.sum_with(currency, value) else {
            return Err(ReportFault::Range);
        };
        self.costs.set(currency, cost)?;
        self.values.set(currency, value)
    }

    /// Writes what stands behind the rows.
    fn end<W: CountedWrite>(&self, writer: &mut W) -> Result<(), PrintFault>
        ensures lines { WritesEach (λ text. text)
            (end_lines self.now.is_empty self.now.costs.sums.entries self.now.values.sums.entries)
            (W.contents writer.old) (W.contents writer.new) result }
        ensures cause { IsErrOf result PrintFault.Write → HasFailed (W.calls writer.new) }
        ensures none_failed { OnOk result (NoneFailed (W.calls writer.old) (W.calls writer.new)) }
    {
        if self.is_empty {
            return print_line(writer, "nothing held");
        }
        self.costs.print(self.alloc, writer, "cost")?;
        self.values.print(self.alloc, writer, "value")
    }
}

fn print_row<W: CountedWrite>(
    alloc: Global,
    writer: &mut W,
    row: &ValuedHolding,
) -> Result<(), PrintFault>
    ensures line { WritesLine (W.contents writer.old) (W.contents writer.new) result
        (holding_row row.now) }
    ensures cause { IsErrOf result PrintFault.Write → HasFailed (W.calls writer.new) }
    ensures none_failed { OnOk result (NoneFailed (W.calls writer.old) (W.calls writer.new)) }
{
    let holding = &row.holding;
    match &holding.lot {
        Some(lot) => print_lot(
            alloc,
            writer,
            holding.account.as_str(),
            holding.units,
            &holding.commodity,
            lot,
            row.valuation,
        ),
        None => print_plain(alloc, writer, holding),
    }
}

#[tactic(auto, using(crate::proofs::PrintLemmas::nothing_written, crate::proofs::OutputLemmas::not_of_writer))]
fn print_plain<W: CountedWrite>(
    alloc: Global,
    writer: &mut W,
    holding: &Holding,
) -> Result<(), PrintFault>
    ensures line { WritesLine (W.contents writer.old) (W.contents writer.new) result
        (plain_row holding.now.account holding.now.commodity holding.now.units) }
    ensures cause { IsErrOf result PrintFault.Write → HasFailed (W.calls writer.new) }
    ensures none_failed { OnOk result (NoneFailed (W.calls writer.old) (W.calls writer.new)) }
{
    let account = &holding.account;
    let units = holding.units.text_money(alloc)?;
    let commodity = &holding.commodity;
    print_line(writer, format_args!("{account} {units} {commodity}"))
}
