//! Laws of the sums of reports. Each is the contract of a function that does nothing.
ghost use Rattle.std.specs.Prelude.{◌≡◌, ℕ, ℤ, List, None, Some, if◌then◌else◌, ◌-ℤ◌};
ghost use Rattle.std.specs.List.{list_any};
ghost use Rattle.lot_book.specs.Sale.{SaleParts};
ghost use Rattle.lot_report.specs.Gains.{amounts_of};
ghost use Rattle.lot_report.specs.Proceeds.{costs_in, is_priced_in, proceeds_in, total_in};
ghost use Rattle.lot_report.specs.Report.{AreSums};

/// The report of gains has a total in a currency exactly where a sale is priced in it. The total is what these sales go for,
/// less what the lots cost that they take.
pub fn a_total_gain_is_proceeds_less_costs()
    ensures { (sales : List SaleParts) (totals : List (List ℕ × ℤ)) (currency : List ℕ)
        → AreSums (amounts_of sales) totals
        → total_in totals currency
        ≡ (if list_any (is_priced_in currency) sales then Some
        (proceeds_in sales currency -ℤ costs_in sales currency) else None) }
{}
