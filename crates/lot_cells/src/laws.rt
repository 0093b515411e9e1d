//! Laws of the rows on a page. Each is the contract of a function that does nothing.
ghost use Rattle.std.specs.Prelude.{ℕ, ℤ, List};
ghost use Rattle.lot_book.specs.Sale.{SaleParts};
ghost use Rattle.lot_cells.specs.Entry.{entry_html};
ghost use Rattle.lot_cells.specs.Gains.{commodity_html, gain_total_html, year_html};
ghost use Rattle.lot_cells.specs.Holdings.{account_html, holding_html, lot_total_html};
ghost use Rattle.lot_cells.specs.Months.{month_html};
ghost use Rattle.lot_cells.specs.Sales.{sale_html};
ghost use Rattle.lot_cells.specs.declared.holdings.LotTotals.{LotTotals as LotTotalsOf};
ghost use Rattle.lot_html.specs.Html.{IsBalanced};
ghost use Rattle.lot_plot.specs.declared.lines.MonthPoint.{MonthPoint as MonthPointOf};
ghost use Rattle.lot_plot.specs.declared.month.Month.{Month as MonthOf};
ghost use Rattle.lot_report.specs.declared.holdings.ValuedHolding.{ValuedHolding as ValuedHoldingOf};
ghost use Rattle.lot_report.specs.declared.journal.Entry.{Entry as EntryOf};
ghost use Rattle.lot_tally.specs.declared.sums.RowSums.{RowSums as RowSumsOf};

/// Rows are elements and text and nothing else, whatever names they have.
pub fn rows_are_balanced()
    ensures year { (year : List ℕ) (sums : RowSumsOf) → IsBalanced (year_html year sums) }
    ensures commodity { (commodity currency : List ℕ) (sums : RowSumsOf)
        → IsBalanced (commodity_html commodity currency sums) }
    ensures gain_total { (currency : List ℕ) (total : ℤ)
        → IsBalanced (gain_total_html currency total) }
    ensures account { (account : List ℕ) → IsBalanced (account_html account) }
    ensures holding { (row : ValuedHoldingOf) (totals : LotTotalsOf)
        → IsBalanced (holding_html row totals) }
    ensures lot_total { (currency : List ℕ) (totals : LotTotalsOf)
        → IsBalanced (lot_total_html currency totals) }
    ensures month { (month : MonthOf) (point : MonthPointOf)
        → IsBalanced (month_html month point) }
    ensures sale { (target : List ℕ) (sale : SaleParts) → IsBalanced (sale_html target sale) }
    ensures entry { (entry : EntryOf) → IsBalanced (entry_html entry) }
{}
