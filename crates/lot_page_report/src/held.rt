//! What is held at the end of the last day, by account.

ghost use Rattle.std.specs.Prelude.{◌≡◌, ◌≢◌, ◌++◌, Err, None, IfErr, IfOk, IsTrue, OnOk, Some, flat_map, map, not, unwrap_or};
ghost use Rattle.std.specs.BTreeMap.{IsOrdered, get};
ghost use Rattle.std.specs.Option.{option_copied};
ghost use Rattle.std.specs.String.{string_bytes};
ghost use Rattle.lot_base.specs.Text.{text_cmp};
ghost use Rattle.lot_book_report.specs.Holdings.{valued_with};
ghost use Rattle.lot_cells.specs.Holdings.{has_room};
ghost use Rattle.lot_cost.specs.declared.lot_key.LotKey.{LotKey as LotKeyOf};
ghost use Rattle.lot_page_report.specs.Held.{IsHeld, Totalled, TotalsLeaveRange};
ghost use Rattle.lot_page_report.specs.Parts.{no_lots, page_in};
ghost use Rattle.lot_page_report.specs.Sections.{account_front, has_values, held_html, held_inner, held_table, is_unpriced, lot_total, row_html, rows_behind, shares_if_any, totals_of, unpriced_in, unpriced_note};
ghost use Rattle.lot_page_report.specs.Text.{at_prices, day_behind, of_day, when_html};
ghost use Rattle.lot_report.specs.declared.fault.ReportFault.TheVariants.{Range, Write};

use crate::head::push_grouped_count;
use crate::scope::PageScope;
use crate::sums::push_foot;
use lot_base::{Account, Commodity, Day};
use lot_book::{Holding, LotKey};
use lot_book_report::DayPrices;
use lot_cells::{LotTotals, push_account, push_holding, push_lot_total};
use lot_html::push_text;
use lot_report::{ReportFault, Valuation, ValuedHolding};
use std::alloc::{AllocError, Global};
use std::collections::BTreeMap;

/// What the lots in each currency come to.
pub(crate) type Totals = BTreeMap<Commodity, LotTotals>;

/// What is held, valued, with what it comes to.
#[derive(Drop)]
pub(crate) struct Held {
    pub rows: Vec<ValuedHolding>,
    pub totals: Totals,
}

/// Returns holdings, each lot at its price, and what all of them come to. The error is `Range`,
/// where a sum leaves its range, or `Memory`.
pub(crate) fn held_of(
    alloc: Global,
    holdings: Vec<Holding>,
    prices: &DayPrices,
) -> Result<Held, ReportFault>
    ensures held { IfOk result (λ held. IsHeld (Some prices.now) holdings.items held) }
    ensures cause { IfErr result (λ fault. fault ≢ Write) }
    ensures range { result ≡ Err Range
        → TotalsLeaveRange (map (valued_with (Some prices.now)) holdings.items) }
{
    let mut rows = Vec::new(alloc);
    let mut totals: Totals = BTreeMap::new(alloc);
    for holding in holdings {
        let row = prices.valued(holding);
        add_lot(&mut totals, &row)?;
        rows.push(row)?;
    }
    Ok(Held { rows, totals })
}

/// Adds a holding to the totals, where it is of a lot. The error is `Range`, where a sum leaves its
/// range, or `Memory`.
fn add_lot(totals: &mut Totals, row: &ValuedHolding) -> Result<(), ReportFault>
    ensures adds { OnOk result (Totalled row.now totals.old totals.new) }
    ensures ordered { OnOk result (IsOrdered text_cmp totals.old
        → IsOrdered text_cmp totals.new) }
    ensures cause { IfErr result (λ fault. fault ≢ Write) }
    ensures range { result ≡ Err Range → (lot : LotKeyOf) × (row.now.holding.lot ≡ Some lot)
        × IsTrue (not (has_room (unwrap_or (get text_cmp totals.old lot.currency) no_lots)
        lot row.now.holding.units row.now.valuation)) }
{
    let Some(lot) = &row.holding.lot else {
        return Ok(());
    };
    let before = total_at(totals, &lot.currency);
    let Some(after) = before.with(lot, row.holding.units, row.valuation) else {
        return Err(ReportFault::Range);
    };
    totals.insert(lot.currency.copy()?, after)?;
    Ok(())
}

/// Returns what the lots in a currency come to.
fn total_at(totals: &Totals, currency: &Commodity) -> LotTotals
    ensures { result ≡ unwrap_or (get text_cmp totals.now currency.now) no_lots }
{
    totals.get(currency).copied().unwrap_or(LotTotals::NONE)
}

/// Returns the totals of the currency of a lot.
fn totals_of(totals: &Totals, lot: &Option<LotKey>) -> LotTotals
    ensures { result ≡ totals_of totals.now.entries lot.now }
{
    match lot {
        Some(lot) => total_at(totals, &lot.currency),
        None => LotTotals::NONE,
    }
}

/// Appends the part of what is held, with what it comes to. The only error is out of memory.
pub(crate) fn push_held(
    alloc: Global,
    text: &mut String,
    scope: &PageScope<'_>,
    rows: &[ValuedHolding],
    totals: &Totals,
) -> Result<(), AllocError>
    ensures { OnOk result (string_bytes text.new ≡ string_bytes text.old
        ++ held_html (page_in scope.now) rows.now totals.now.entries) }
{
    text.push_str("<section id=\"holdings\">\n<h2>Holdings</h2>\n")?;
    push_when(alloc, text, scope)?;
    push_held_inner(alloc, text, rows, totals)?;
    text.push_str("</section>\n")
}

/// Appends what stands above the table: at the end of which day things are held, and at which
/// prices they are valued.
fn push_when(alloc: Global, text: &mut String, scope: &PageScope<'_>) -> Result<(), AllocError>
    ensures { OnOk result (string_bytes text.new
        ≡ string_bytes text.old ++ when_html (page_in scope.now)) }
{
    text.push_str("<p class=\"note\">At the end")?;
    push_of_day(alloc, text, scope.last)?;
    push_prices_day(alloc, text, scope.asked_prices())?;
    text.push_str("</p>\n")
}

/// Appends the day at whose end things are held, if there is one.
fn push_of_day(alloc: Global, text: &mut String, last: Option<Day>) -> Result<(), AllocError>
    ensures { OnOk result (string_bytes text.new ≡ string_bytes text.old ++ of_day last) }
{
    match last {
        Some(day) => push_day_behind(alloc, text, " of ", day),
        None => Ok(()),
    }
}

/// Appends the day of the prices, if one was asked for.
fn push_prices_day(alloc: Global, text: &mut String, prices: Option<Day>) -> Result<(), AllocError>
    ensures { OnOk result (string_bytes text.new
        ≡ string_bytes text.old ++ at_prices prices) }
{
    match prices {
        Some(day) => push_day_behind(alloc, text, ", at the prices of ", day),
        None => text.push_str(", at the last prices"),
    }
}

/// Appends a text, and a day behind it.
fn push_day_behind(
    alloc: Global,
    text: &mut String,
    before: &str,
    day: Day,
) -> Result<(), AllocError>
    ensures { OnOk result (string_bytes text.new
        ≡ string_bytes text.old ++ day_behind before.now day) }
{
    let day = day.text(alloc)?;
    text.push_str(before)?;
    push_text(text, day.as_str())
}

/// Appends the table, or that nothing is held.
fn push_held_inner(
    alloc: Global,
    text: &mut String,
    rows: &[ValuedHolding],
    totals: &Totals,
) -> Result<(), AllocError>
    ensures { OnOk result (string_bytes text.new ≡ string_bytes text.old
        ++ held_inner rows.now totals.now.entries) }
{
    if rows.is_empty() {
        return text.push_str("<p>Nothing held</p>\n");
    }
    push_table(alloc, text, rows, totals)
}

/// What stands before the rows of the table.
const HELD_HEAD: &str =
    "<div class=\"wide\" role=\"region\" tabindex=\"0\" aria-label=\"Holdings\">\n<table>\n<caption>What accounts hold, lot by lot</caption>\n<thead>\n<tr><th scope=\"col\">Commodity</th><th class=\"n\" scope=\"col\">Units</th><th scope=\"col\">Acquired</th><th scope=\"col\">Label</th><th class=\"n\" scope=\"col\">Unit cost</th><th class=\"n\" scope=\"col\">Cost</th><th class=\"n\" scope=\"col\">Price</th><th class=\"n\" scope=\"col\">Value</th><th class=\"n\" scope=\"col\">Unrealised gain</th><th scope=\"col\">Currency</th><th class=\"n\" scope=\"col\">Share</th></tr>\n</thead>\n";

/// Appends the table, with what is said of it.
fn push_table(
    alloc: Global,
    text: &mut String,
    rows: &[ValuedHolding],
    totals: &Totals,
) -> Result<(), AllocError>
    ensures { OnOk result (string_bytes text.new ≡ string_bytes text.old
        ++ held_table rows.now totals.now.entries) }
{
    let foot = totals_text(alloc, totals)?;
    text.push_str(HELD_HEAD)?;
    push_rows(alloc, text, rows, totals)?;
    text.push_str("</tbody>\n")?;
    push_foot(text, foot.as_str())?;
    text.push_str("</table>\n</div>\n")?;
    push_unpriced(text, rows)?;
    push_shares(text, totals)
}

/// Appends the rows, those of an account together below its name.
fn push_rows(
    alloc: Global,
    text: &mut String,
    rows: &[ValuedHolding],
    totals: &Totals,
) -> Result<(), AllocError>
    ensures { OnOk result (string_bytes text.new ≡ string_bytes text.old
        ++ rows_behind totals.now.entries None rows.now) }
{
    let mut before: Option<&Account> = None;
    for row in rows {
        push_account_front(text, before, &row.holding.account)?;
        push_row(alloc, text, row, totals)?;
        before = Some(&row.holding.account);
    }
    Ok(())
}

/// Appends the name of an account, where that of the row before is another one.
fn push_account_front(
    text: &mut String,
    before: Option<&Account>,
    account: &Account,
) -> Result<(), AllocError>
    ensures { OnOk result (string_bytes text.new ≡ string_bytes text.old
        ++ account_front (option_copied before.entry) account.now) }
{
    match before {
        Some(before) if *before == *account => Ok(()),
        Some(_) => {
            text.push_str("</tbody>\n<tbody>\n")?;
            push_account(text, account)
        }
        None => {
            text.push_str("<tbody>\n")?;
            push_account(text, account)
        }
    }
}

/// Appends the row of a holding.
fn push_row(
    alloc: Global,
    text: &mut String,
    row: &ValuedHolding,
    totals: &Totals,
) -> Result<(), AllocError>
    ensures { OnOk result (string_bytes text.new
        ≡ string_bytes text.old ++ row_html totals.now.entries row.now) }
{
    let total = totals_of(totals, &row.holding.lot);
    push_holding(alloc, text, row, &total)
}

/// Returns the rows of what the lots in each currency come to. The only error is out of memory.
fn totals_text(alloc: Global, totals: &Totals) -> Result<String, AllocError>
    ensures { IfOk result (λ text. string_bytes text ≡ flat_map lot_total totals.now.entries) }
{
    let mut text = String::new(alloc);
    for (currency, total) in totals {
        push_lot_total(alloc, &mut text, currency, total)?;
    }
    Ok(text)
}

/// Appends how many lots have no price, where there are some.
fn push_unpriced(text: &mut String, rows: &[ValuedHolding]) -> Result<(), AllocError>
    ensures { OnOk result (string_bytes text.new
        ≡ string_bytes text.old ++ unpriced_note (unpriced_in rows.now)) }
{
    let count = unpriced_in(rows);
    if count == 0 {
        return Ok(());
    }
    text.push_str("<p class=\"note\">Lots without a price: ")?;
    push_grouped_count(text, count)?;
    text.push_str(". They count in the total cost, not in the total value and gain.</p>\n")
}

/// Returns how many lots have no price.
fn unpriced_in(rows: &[ValuedHolding]) -> u64
    ensures { result ≡ unpriced_in rows.now }
{
    let mut count = 0;
    for row in rows {
        if is_unpriced(row.valuation) {
            count += 1;
        }
    }
    count
}

/// Returns whether there is no price.
fn is_unpriced(valuation: Valuation) -> bool
    ensures { result ≡ is_unpriced valuation }
{
    match valuation {
        Valuation::Missing => true,
        Valuation::At(_) | Valuation::Unasked => false,
    }
}

/// What is said of shares.
const SHARES: &str =
    "<p class=\"note\">A share is of the values of all lots in the currency, whatever their signs, rounded down to a tenth of a percent.</p>\n";

/// Appends what is said of shares, where some lot has one.
fn push_shares(text: &mut String, totals: &Totals) -> Result<(), AllocError>
    ensures { OnOk result (string_bytes text.new
        ≡ string_bytes text.old ++ shares_if_any totals.now.entries) }
{
    if has_values(totals) {
        return text.push_str(SHARES);
    }
    Ok(())
}

/// Returns whether some lot has a value.
fn has_values(totals: &Totals) -> bool
    ensures { result ≡ has_values totals.now.entries }
{
    for (_, total) in totals {
        if total.valued.is_some() {
            return true;
        }
    }
    false
}
