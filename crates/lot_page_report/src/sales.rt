//! The sales of the range with their lots.

ghost use Rattle.std.specs.Prelude.{◌≡◌, ◌∷◌, ◌++◌, [], IfOk, List, OnOk, if◌then◌else◌, not};
ghost use Rattle.std.specs.String.{string_bytes};
ghost use Rattle.lot_page_report.specs.Sections.{sale_front, sale_piece, sale_row, sales_end, target_of};
ghost use Rattle.lot_page_report.specs.Listed.{HasListedSales};
ghost use Rattle.lot_walk.specs.declared.gains.NumberedSale.{NumberedSale as NumberedSaleOf};

use crate::list::Listing;
use lot_cells::push_sale;
use lot_months::month_of;
use lot_plot::{Month, push_month};
use lot_walk::NumberedSale;
use std::alloc::{AllocError, Global};

/// What stands before the rows of the sales.
const SALES_HEAD: &str =
    "<div class=\"wide\" role=\"region\" tabindex=\"0\" aria-label=\"Sales\">\n<table>\n<caption>What was sold, lot by lot</caption>\n<thead>\n<tr><th scope=\"col\">Sold</th><th scope=\"col\">Account</th><th scope=\"col\">Commodity</th><th class=\"n\" scope=\"col\">Units</th><th scope=\"col\">Acquired</th><th class=\"n\" scope=\"col\">Days</th><th scope=\"col\">Term</th><th scope=\"col\">Label</th><th class=\"n\" scope=\"col\">Unit cost</th><th class=\"n\" scope=\"col\">Proceeds</th><th class=\"n\" scope=\"col\">Cost</th><th class=\"n\" scope=\"col\">Gain</th><th scope=\"col\">Currency</th></tr>\n</thead>\n";

/// The table of sales, as it is written.
#[derive(Drop)]
pub(crate) struct SalesList {
    alloc: Global,
    has_begun: bool,
}

impl SalesList {
    /// The table before its first row. It takes no memory.
    pub fn new(alloc: Global) -> SalesList
        ensures { HasListedSales tt [] result }
    {
        SalesList {
            alloc,
            has_begun: false,
        }
    }
}

impl Listing<NumberedSale> for SalesList {
    ghost Terms = { Unit {0} };

    ghost Told = { NumberedSaleOf };

    ghost told = { λ sold. sold };

    ghost piece = { λ _. sale_piece };

    ghost end_of = { λ _. sales_end };

    ghost HasListed = { HasListedSales };

    fn next_text(&mut self, sold: NumberedSale) -> Result<String, AllocError> {
        let mut text = String::new(self.alloc);
        push_front(&mut text, self.has_begun)?;
        push_sold(self.alloc, &mut text, &sold)?;
        self.has_begun = true;
        Ok(text)
    }

    fn end_text(&self) -> &'static str {
        if self.has_begun {
            "</table>\n</div>\n</section>\n"
        } else {
            "<p>No sales</p>\n</section>\n"
        }
    }
}

/// Appends what stands before the first row.
fn push_front(text: &mut String, has_begun: bool) -> Result<(), AllocError>
    ensures { OnOk result (string_bytes text.new
        ≡ string_bytes text.old ++ sale_front has_begun) }
{
    if has_begun {
        return Ok(());
    }
    text.push_str(SALES_HEAD)
}

/// Appends the rows of a sale, which are linked to the month of its entry.
fn push_sold(alloc: Global, text: &mut String, sold: &NumberedSale) -> Result<(), AllocError>
    ensures { OnOk result (string_bytes text.new ≡ string_bytes text.old ++ sale_row sold.now) }
{
    let target = target_of(alloc, month_of(sold.sale.day()))?;
    push_sale(alloc, text, target.as_str(), &sold.sale)
}

/// Returns by what a month of the journal is linked to. The only error is out of memory.
fn target_of(alloc: Global, month: Month) -> Result<String, AllocError>
    ensures { IfOk result (λ text. string_bytes text ≡ target_of month.0) }
{
    let mut text = String::new(alloc);
    push_target(&mut text, month)?;
    Ok(text)
}

/// Appends by what a month of the journal is linked to. The only error is out of memory.
pub(crate) fn push_target(text: &mut String, month: Month) -> Result<(), AllocError>
    ensures { OnOk result (string_bytes text.new
        ≡ string_bytes text.old ++ target_of month.0) }
{
    text.push_str("m")?;
    push_month(text, month)
}
