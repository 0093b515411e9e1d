ghost use Rattle.std.specs.Prelude.{◌≡◌, ◌∷◌, ◌++◌, [], ℕ, IsErrOf, List, OnOk};
ghost use Rattle.lot_book.specs.Sale.{SaleParts};
ghost use Rattle.lot_io.specs.Writes.{HasFailed, NoneFailed};
ghost use Rattle.lot_report.specs.Written.{WritesEach};
ghost use Rattle.lot_tally.specs.Lots.{all_lots};
ghost use Rattle.lot_tally.specs.Rows.{Adds};
ghost use Rattle.lot_tally.specs.Table.{HasRows, IsEnd, IsTable, fits};
ghost use Rattle.lot_tally.specs.declared.key.GainKey.{GainKey as GainKeyOf};
ghost use Rattle.lot_tally.specs.declared.key.TableForm.{TableForm as TableFormOf};

use crate::counted::{Counted, RowKey};
use crate::key::{GainKey, TableForm};
use crate::sums::RowSums;
use lot_book::Sale;
use lot_io::CountedWrite;
use lot_report::{PrintFault, ReportFault};
use std::alloc::Global;
use std::collections::BTreeMap;

/// A table of what sales gained, lot by lot: a row for each combination of keys and currency, with
/// its lots, what they went for, what they cost and what they gained. Lots of unpriced sales are
/// counted beside them, with their cost.
///
/// It takes sales one after another, and is written at the end. After a fault it says nothing of
/// use.
#[derive(Drop)]
pub struct GainsTable<'a> {
    alloc: Global,
    by: &'a [GainKey],
    form: TableForm,
    counted: Counted,
}

impl<'a> GainsTable<'a> {
    /// The table by these keys, in that form, before its first sale. It takes no memory.
    pub fn new(alloc: Global, by: &'a [GainKey], form: TableForm) -> GainsTable<'a>
        ensures { IsTable by.now form [] result }
    {
        GainsTable {
            alloc,
            by,
            form,
            counted: Counted::new(alloc),
        }
    }

    /// Adds a sale. The error is one of these:
    ///
    /// - `Range`: a sum of a row, or the total gain in a currency, leaves its range.
    /// - `Memory`: out of memory.
    pub fn add(&mut self, sale: &Sale) -> Result<(), ReportFault>
        ensures { (by : List GainKeyOf) (form : TableFormOf) (sales : List SaleParts)
            → IsTable by form sales self.old
            → Adds (fits by form sales sale.now)
            (IsTable by form (sales ++ sale.now ∷ []) self.new) result }
    {
        self.counted.add(self.alloc, self.by, self.form, sale)
    }

    /// Returns the rows of all sales so far, in the order of their keys. The text of the keys of a row
    /// has behind each field what separates it from the next one.
    pub fn rows(&self) -> &BTreeMap<RowKey, RowSums>
        ensures { (by : List GainKeyOf) (form : TableFormOf) (sales : List SaleParts)
            → IsTable by form sales self.now → HasRows (all_lots by form sales) result.now }
    {
        self.counted.rows()
    }

    /// Writes the table of all sales so far. As text it ends with what all of them gained in each
    /// currency; where there was no sale, it says that there are no gains. As CSV it begins with the
    /// names of the columns.
    ///
    /// Where memory ends, whole rows are written, but not all. Where the writer fails, a prefix of
    /// the table is written, but not all of it.
    pub fn write<W: CountedWrite>(&self, writer: &mut W) -> Result<(), PrintFault>
        ensures table { (by : List GainKeyOf) (form : TableFormOf) (sales : List SaleParts)
            → IsTable by form sales self.now
            → (end : List (List ℕ)) × IsEnd by form sales end
            × WritesEach (λ text. text) end (W.contents writer.old) (W.contents writer.new)
            result }
        ensures cause { IsErrOf result PrintFault.Write → HasFailed (W.calls writer.new) }
        ensures none_failed { OnOk result
            (NoneFailed (W.calls writer.old) (W.calls writer.new)) }
    {
        self.counted.print(self.alloc, self.by, self.form, writer)
    }
}
