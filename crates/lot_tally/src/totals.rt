ghost use Rattle.std.specs.Prelude.{◌≡◌, List, [], ◌∷◌, ◌++◌, ℕ, ℤ, ◌+ℤ◌, SomeIff, IfErr, IsErrOf, OnOk, codes};
ghost use Rattle.lot_num.specs.Amount.{IsWide};
ghost use Rattle.lot_book.specs.Currencies.{sum_in};
ghost use Rattle.lot_io.specs.Writes.{HasFailed, NoneFailed};
ghost use Rattle.lot_report.specs.Printed.{total_of};
ghost use Rattle.lot_report.specs.Report.{AreSums, is_wide};
ghost use Rattle.lot_report.specs.Written.{WritesEach, WritesLine};
ghost use Rattle.lot_tally.specs.Rows.{AddsFitting};

use lot_base::Commodity;
use lot_io::CountedWrite;
use lot_num::Wide;
use lot_report::{PrintFault, ReportFault, print_line};
use std::alloc::Global;
use std::collections::BTreeMap;

/// What all sales gained in each currency.
#[derive(Drop)]
pub(crate) struct Totals {
    sums: BTreeMap<Commodity, Wide>,
}

impl Totals {
    /// The totals of no sales.
    pub fn new(alloc: Global) -> Totals
        ensures { AreSums [] result.sums.entries }
    {
        Totals {
            sums: BTreeMap::new(alloc),
        }
    }

    /// Adds an amount. The error is `Range` where it takes the sum in its currency out of the range
    /// of weights, else `Memory`.
    pub fn add(&mut self, currency: &Commodity, amount: Wide) -> Result<(), ReportFault>
        ensures { (amounts : List (List ℕ × ℤ)) → AreSums amounts self.old.sums.entries
            → AddsFitting (is_wide (sum_in amounts currency.now +ℤ amount))
            (AreSums (amounts ++ (currency.now, amount) ∷ []) self.new.sums.entries) result }
    {
        match self.sum_with(currency, amount) {
            Some(sum) => self.set(currency, sum),
            None => Err(ReportFault::Range),
        }
    }

    /// Returns the sum in a currency with one more amount, where it is in range.
    fn sum_with(&self, currency: &Commodity, amount: Wide) -> Option<Wide>
        ensures { (amounts : List (List ℕ × ℤ)) → AreSums amounts self.now.sums.entries
            → SomeIff result (IsWide (sum_in amounts currency.now +ℤ amount))
            (sum_in amounts currency.now +ℤ amount) }
    {
        let sum = self.sums.get(currency).copied().unwrap_or(Wide::ZERO);
        sum.checked_add(amount)
    }

    /// Sets the sum in a currency. The only error is out of memory.
    fn set(&mut self, currency: &Commodity, sum: Wide) -> Result<(), ReportFault>
        ensures sums { (amounts : List (List ℕ × ℤ)) (amount : ℤ)
            → AreSums amounts self.old.sums.entries
            → sum ≡ sum_in amounts currency.now +ℤ amount
            → OnOk result (AreSums (amounts ++ (currency.now, amount) ∷ []) self.new.sums.entries) }
        ensures cause { IfErr result (λ fault. fault ≡ ReportFault.Memory) }
    {
        self.sums.insert(currency.copy()?, sum)?;
        Ok(())
    }

    /// Writes a line for each sum, in the order of the bytes of the currencies.
    pub fn print<W: CountedWrite>(&self, alloc: Global, writer: &mut W) -> Result<(), PrintFault>
        ensures lines { WritesEach (λ sum. total_of (codes "gain") sum.0 sum.1)
            self.now.sums.entries (W.contents writer.old) (W.contents writer.new) result }
        ensures cause { IsErrOf result PrintFault.Write → HasFailed (W.calls writer.new) }
        ensures none_failed { OnOk result (NoneFailed (W.calls writer.old) (W.calls writer.new)) }
    {
        for (currency, sum) in &self.sums {
            print_total(alloc, writer, currency, *sum)?;
        }
        Ok(())
    }
}

fn print_total<W: CountedWrite>(
    alloc: Global,
    writer: &mut W,
    currency: &Commodity,
    total: Wide,
) -> Result<(), PrintFault>
    ensures line { WritesLine (W.contents writer.old) (W.contents writer.new) result
        (total_of (codes "gain") currency.now total) }
    ensures cause { IsErrOf result PrintFault.Write → HasFailed (W.calls writer.new) }
    ensures none_failed { OnOk result (NoneFailed (W.calls writer.old) (W.calls writer.new)) }
{
    let total = total.text_money(alloc)?;
    print_line(writer, format_args!("total gain {total} {currency}"))
}
