ghost use Rattle.std.specs.Prelude.{◌≡◌, ◌++◌, ◌-ℤ◌, nat_abs, pos, IsTrue, OnOk, SomeIff};
ghost use Rattle.std.specs.String.{string_bytes};
ghost use Rattle.lot_cells.specs.Holdings.{account_html, has_room, holding_html, lot_cells, lot_total_html, position_cells, priced_fits, priced_with, share_cell, share_of, size_in, thousandths_of, total_cells, totals_with, units_cells, unvalued_cells, value_at, value_cells, valued_cells, valued_fits, valued_or_nothing, valued_with};

use crate::cell::{
    gain_of, push_label, push_money, push_money_gain, push_name_cell, push_number, push_plain,
};
use lot_base::{Account, Commodity};
use lot_book::LotKey;
use lot_html::push_name;
use lot_num::{Rate, Units, Wide, weight};
use lot_plot::{push_percent, step_of};
use lot_report::{Valuation, ValuedHolding};
use std::alloc::{AllocError, Global};

/// 1,000 times a value below it has at most 128 bits.
const LARGE: u128 = 332_306_998_946_228_968_225_951_765_070_086_144;

/// What all lots in a currency come to.
#[derive(Clone, Copy, Debug, PartialEq, Eq)]
pub struct LotTotals {
    /// What all of them cost.
    pub cost: Wide,
    /// What those with a price are worth, and what they would gain.
    pub valued: Option<Valued>,
}

/// What lots with a price come to.
#[derive(Clone, Copy, Debug, PartialEq, Eq)]
pub struct Valued {
    pub value: Wide,
    /// What they are worth less what they cost.
    pub gain: Wide,
    /// What they are worth, whatever the sign of each.
    pub size: Wide,
}

impl LotTotals {
    /// The totals of no lots.
    pub const NONE: LotTotals = LotTotals {
        cost: Wide::ZERO,
        valued: None,
    };

    /// Returns the totals with one more lot of so many units, or `None` where a sum leaves its range.
    pub fn with(self, lot: &LotKey, units: Units, valuation: Valuation) -> Option<LotTotals>
        ensures { SomeIff result (IsTrue (has_room self lot.now units valuation))
            (totals_with self lot.now units valuation) }
    {
        let cost = self.cost.checked_add(weight(units, lot.number))?;
        let valued = priced_with(self.valued, lot, units, valuation)?;
        Some(LotTotals { cost, valued })
    }
}

/// Returns what lots with a price come to with one more lot, or `None` where a sum leaves its range.
fn priced_with(
    valued: Option<Valued>,
    lot: &LotKey,
    units: Units,
    valuation: Valuation,
) -> Option<Option<Valued>>
    ensures { SomeIff result (IsTrue (priced_fits valued lot.now units valuation))
        (priced_with valued lot.now units valuation) }
{
    match valuation {
        Valuation::At(price) => {
            let value = weight(units, price);
            let gain = unrealised(units, price, lot.number);
            Some(Some(valued_or_nothing(valued).with(value, gain)?))
        }
        Valuation::Missing | Valuation::Unasked => Some(valued),
    }
}

/// Returns what units would gain that are worth one price each and cost another, which is in range.
fn unrealised(units: Units, price: Rate, cost: Rate) -> Wide
    ensures { result ≡ value_at units price -ℤ value_at units cost }
{
    gain_of(weight(units, price), weight(units, cost)).unwrap_or(Wide::ZERO)
}

/// Returns what lots with a price come to, which is zero where there is none.
fn valued_or_nothing(valued: Option<Valued>) -> Valued
    ensures { result ≡ valued_or_nothing valued }
{
    match valued {
        Some(valued) => valued,
        None => Valued {
            value: Wide::ZERO,
            gain: Wide::ZERO,
            size: Wide::ZERO,
        },
    }
}

impl Valued {
    /// Returns the same with one more lot, or `None` where a sum leaves its range.
    fn with(self, value: Wide, gain: Wide) -> Option<Valued>
        ensures { SomeIff result (IsTrue (valued_fits self value gain))
            (valued_with self value gain) }
    {
        Some(Valued {
            value: self.value.checked_add(value)?,
            gain: self.gain.checked_add(gain)?,
            size: self.size.checked_add(size_of(value))?,
        })
    }
}

/// Returns a value without its sign.
fn size_of(value: Wide) -> Wide
    ensures { result ≡ pos (nat_abs value) }
{
    if value.mantissa() < 0 {
        value.negated()
    } else {
        value
    }
}

/// Appends the row that names an account, above what it holds. The only error is out of memory.
pub fn push_account(text: &mut String, account: &Account) -> Result<(), AllocError>
    ensures { OnOk result (string_bytes text.new
        ≡ string_bytes text.old ++ account_html account.now) }
{
    text.push_str("<tr class=\"by\"><th colspan=\"11\" scope=\"rowgroup\">")?;
    push_name(text, account.as_str())?;
    text.push_str("</th></tr>\n")
}

/// Appends the row of a holding, with its share in what all lots in its currency are worth. The only
/// error is out of memory.
pub fn push_holding(
    alloc: Global,
    text: &mut String,
    row: &ValuedHolding,
    totals: &LotTotals,
) -> Result<(), AllocError>
    ensures { OnOk result (string_bytes text.new
        ≡ string_bytes text.old ++ holding_html row.now totals.now) }
{
    text.push_str("<tr>")?;
    push_name_cell(text, row.holding.commodity.as_str())?;
    push_position(alloc, text, row, totals)?;
    text.push_str("</tr>\n")
}

/// Appends the cells of a holding behind its commodity.
fn push_position(
    alloc: Global,
    text: &mut String,
    row: &ValuedHolding,
    totals: &LotTotals,
) -> Result<(), AllocError>
    ensures { OnOk result (string_bytes text.new ≡ string_bytes text.old
        ++ position_cells row.now.holding.lot row.now.holding.units row.now.valuation
        totals.now) }
{
    match &row.holding.lot {
        Some(lot) => push_lot(alloc, text, row.holding.units, lot, row.valuation, totals),
        None => push_units(alloc, text, row.holding.units),
    }
}

/// Appends the cells of plain units.
fn push_units(alloc: Global, text: &mut String, units: Units) -> Result<(), AllocError>
    ensures { OnOk result (string_bytes text.new
        ≡ string_bytes text.old ++ units_cells units) }
{
    let number = units.text_money(alloc)?;
    push_number(text, number.as_str())?;
    text.push_str("<td colspan=\"9\"></td>")
}

/// Appends the cells of units in a lot.
fn push_lot(
    alloc: Global,
    text: &mut String,
    units: Units,
    lot: &LotKey,
    valuation: Valuation,
    totals: &LotTotals,
) -> Result<(), AllocError>
    ensures { OnOk result (string_bytes text.new
        ≡ string_bytes text.old ++ lot_cells lot.now units valuation totals.now) }
{
    let number = units.text(alloc)?;
    push_number(text, number.as_str())?;
    let acquired = lot.day.text(alloc)?;
    push_plain(text, acquired.as_str())?;
    push_label(text, &lot.label)?;
    let cost = lot.number.text(alloc)?;
    push_number(text, cost.as_str())?;
    push_money(alloc, text, weight(units, lot.number))?;
    push_value(alloc, text, units, lot, valuation, totals)
}

/// Appends what stands behind the cost of a lot.
fn push_value(
    alloc: Global,
    text: &mut String,
    units: Units,
    lot: &LotKey,
    valuation: Valuation,
    totals: &LotTotals,
) -> Result<(), AllocError>
    ensures { OnOk result (string_bytes text.new
        ≡ string_bytes text.old ++ value_cells lot.now units valuation totals.now) }
{
    match valuation {
        Valuation::At(price) => push_valued(alloc, text, units, lot, price, totals),
        Valuation::Missing | Valuation::Unasked => push_unvalued(text, lot),
    }
}

/// Appends what units of a lot are worth at a price, and what they would gain.
fn push_valued(
    alloc: Global,
    text: &mut String,
    units: Units,
    lot: &LotKey,
    price: Rate,
    totals: &LotTotals,
) -> Result<(), AllocError>
    ensures { OnOk result (string_bytes text.new
        ≡ string_bytes text.old ++ valued_cells lot.now units price totals.now) }
{
    let number = price.text(alloc)?;
    push_number(text, number.as_str())?;
    push_money(alloc, text, weight(units, price))?;
    push_money_gain(alloc, text, unrealised(units, price, lot.number))?;
    push_name_cell(text, lot.currency.as_str())?;
    push_share(text, share_of(weight(units, price), totals))
}

/// Appends what stands behind the cost of a lot without a price.
fn push_unvalued(text: &mut String, lot: &LotKey) -> Result<(), AllocError>
    ensures { OnOk result (string_bytes text.new
        ≡ string_bytes text.old ++ unvalued_cells lot.now) }
{
    text.push_str("<td class=\"n\" colspan=\"3\">no price</td>")?;
    push_name_cell(text, lot.currency.as_str())?;
    text.push_str("<td></td>")
}

/// Returns the share of a value in all of them, whatever their signs, in thousandths, rounded down.
fn share_of(value: Wide, totals: &LotTotals) -> u32
    ensures { result ≡ share_of value totals.now }
{
    let all = size_in(totals.valued);
    let share = thousandths_of(value.mantissa().unsigned_abs(), all.mantissa());
    share.min(1_000) as u32
}

/// Returns how many thousandths of a sum a value is, rounded down. Of a value from `LARGE` on it may be
/// one less.
fn thousandths_of(value: u128, all: i128) -> u128
    ensures { result ≡ thousandths_of value all }
{
    let size = all.unsigned_abs();
    if size == 0 {
        return 0;
    }
    if value < LARGE {
        return value * 1_000 / size;
    }
    value / step_of(all).unsigned_abs()
}

/// Returns what lots with a price are worth, whatever the sign of each.
fn size_in(valued: Option<Valued>) -> Wide
    ensures { result ≡ size_in valued }
{
    match valued {
        Some(valued) => valued.size,
        None => Wide::ZERO,
    }
}

/// Appends the cell of a share, with its bar.
fn push_share(text: &mut String, share: u32) -> Result<(), AllocError>
    ensures { OnOk result (string_bytes text.new
        ≡ string_bytes text.old ++ share_cell share) }
{
    text.push_str("<td class=\"n\"><data value=\"")?;
    push_percent(text, share)?;
    text.push_str("\">")?;
    push_percent(text, share)?;
    text.push_str("%</data><svg class=\"share\" aria-hidden=\"true\"><rect width=\"")?;
    push_percent(text, share)?;
    text.push_str("%\" height=\"100%\"></rect></svg></td>")
}

/// Appends the row of what all lots in a currency come to. The only error is out of memory.
pub fn push_lot_total(
    alloc: Global,
    text: &mut String,
    currency: &Commodity,
    totals: &LotTotals,
) -> Result<(), AllocError>
    ensures { OnOk result (string_bytes text.new
        ≡ string_bytes text.old ++ lot_total_html currency.now totals.now) }
{
    text.push_str("<tr><th colspan=\"5\" scope=\"row\">Total</th>")?;
    push_money(alloc, text, totals.cost)?;
    text.push_str("<td></td>")?;
    push_all_valued(alloc, text, totals.valued)?;
    push_name_cell(text, currency.as_str())?;
    text.push_str("<td></td></tr>\n")
}

/// Appends what lots with a price are worth, and what they would gain.
fn push_all_valued(
    alloc: Global,
    text: &mut String,
    valued: Option<Valued>,
) -> Result<(), AllocError>
    ensures { OnOk result (string_bytes text.new
        ≡ string_bytes text.old ++ total_cells valued) }
{
    match valued {
        Some(valued) => {
            push_money(alloc, text, valued.value)?;
            push_money_gain(alloc, text, valued.gain)
        }
        None => text.push_str("<td></td><td></td>"),
    }
}
