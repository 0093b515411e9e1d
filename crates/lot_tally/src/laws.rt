//! Laws of tables of gains. Each is the contract of a function that only calls the law on which it
//! stands.
ghost use Rattle.std.specs.Prelude.{◌≡◌, ℕ, List};
ghost use Rattle.std.specs.List.{AllByRecursion};
ghost use Rattle.lot_book.specs.Currencies.{sum_in};
ghost use Rattle.lot_book.specs.Sale.{SaleParts};
ghost use Rattle.lot_report.specs.Gains.{amounts_of};
ghost use Rattle.lot_tally.specs.Lots.{RowKey, all_lots};
ghost use Rattle.lot_tally.specs.Rows.{AreRows};
ghost use Rattle.lot_tally.specs.Table.{HasOwnLegs, gain_in_rows};
ghost use Rattle.lot_tally.specs.declared.key.GainKey.{GainKey};
ghost use Rattle.lot_tally.specs.declared.key.TableForm.{TableForm};
ghost use Rattle.lot_tally.specs.declared.sums.RowSums.{RowSums};

use lot_csv::laws::records_add_up_to_the_sale;

/// In each currency the gains of the rows add up to the total that `gains` prints of the same
/// sales, whatever the keys are.
pub fn rows_add_up_to_the_total()
    ensures { (by : List GainKey) (form : TableForm) (sales : List SaleParts)
        (rows : List (RowKey × RowSums)) (currency : List ℕ)
        → AllByRecursion HasOwnLegs sales → AreRows (all_lots by form sales) rows
        → gain_in_rows currency rows ≡ sum_in (amounts_of sales) currency }
{
    records_add_up_to_the_sale();
}

/// So the gains of the rows come to the same by any two lists of keys, in either form.
pub fn any_keys_give_the_same_total()
    ensures { (by others : List GainKey) (form other : TableForm) (sales : List SaleParts)
        (rows other_rows : List (RowKey × RowSums)) (currency : List ℕ)
        → AllByRecursion HasOwnLegs sales → AreRows (all_lots by form sales) rows
        → AreRows (all_lots others other sales) other_rows
        → gain_in_rows currency rows ≡ gain_in_rows currency other_rows }
{
    rows_add_up_to_the_total();
}
