ghost use Rattle.std.specs.Prelude.{◌≡◌, ◌++◌, ◌-ℤ◌, flat_map, OnOk, zip};
ghost use Rattle.std.specs.String.{string_bytes};
ghost use Rattle.std.specs.Fmt.{signed_decimal};
ghost use Rattle.lot_cells.specs.Cell.{number_cell};
ghost use Rattle.lot_cells.specs.Sales.{gained_cells, lot_html, result_cells, sale_html, sold_cell, taken_cells, unpriced_cells};

use crate::cell::{
    push_label, push_money, push_money_gain, push_name_cell, push_number, push_plain,
};
use itoa::Buffer;
use lot_base::Day;
use lot_book::{Gain, LotKey, Sale};
use lot_csv::{lot_cost, lot_gains};
use lot_html::push_text;
use lot_num::Units;
use lot_period::term_of;
use std::alloc::{AllocError, Global};

/// Appends the rows of the lots of a sale, in the order in which they were taken, each with a link to
/// the month of its entry in the journal. The only error is out of memory.
pub fn push_sale(
    alloc: Global,
    text: &mut String,
    target: &str,
    sale: &Sale,
) -> Result<(), AllocError>
    ensures { OnOk result (string_bytes text.new
        ≡ string_bytes text.old ++ sale_html target.now sale.now) }
{
    let legs = sale.legs();
    let gains = lot_gains(alloc, sale)?;
    text.push_str("<tbody>\n")?;
    push_lots(alloc, text, target, sale, legs, &gains)?;
    text.push_str("</tbody>\n")
}

/// Appends the rows of legs of a sale, each with what its lot gains.
fn push_lots(
    alloc: Global,
    text: &mut String,
    target: &str,
    sale: &Sale,
    legs: &[(LotKey, Units)],
    gains: &[Option<Gain>],
) -> Result<(), AllocError>
    ensures { OnOk result (string_bytes text.new ≡ string_bytes text.old
        ++ flat_map (lot_html target.now sale.now) (zip legs.now gains.now)) }
{
    for (leg, gain) in legs.iter().zip(gains) {
        push_lot(alloc, text, target, sale, leg, gain)?;
    }
    Ok(())
}

/// Appends the row of a lot of a sale.
fn push_lot(
    alloc: Global,
    text: &mut String,
    target: &str,
    sale: &Sale,
    leg: &(LotKey, Units),
    gain: &Option<Gain>,
) -> Result<(), AllocError>
    ensures { OnOk result (string_bytes text.new
        ≡ string_bytes text.old ++ lot_html target.now sale.now (leg.now, gain.now)) }
{
    push_sold(alloc, text, target, sale.day())?;
    push_name_cell(text, sale.account().as_str())?;
    push_name_cell(text, sale.commodity().as_str())?;
    push_taken(alloc, text, sale.day(), leg)?;
    push_result(alloc, text, leg, gain)?;
    push_name_cell(text, leg.0.currency.as_str())?;
    text.push_str("</tr>\n")
}

/// Appends the day of a sale, with the link.
fn push_sold(alloc: Global, text: &mut String, target: &str, day: Day) -> Result<(), AllocError>
    ensures { OnOk result (string_bytes text.new
        ≡ string_bytes text.old ++ sold_cell target.now day) }
{
    let sold = day.text(alloc)?;
    text.push_str("<tr><td><a href=\"#")?;
    push_text(text, target)?;
    text.push_str("\">")?;
    push_text(text, sold.as_str())?;
    text.push_str("</a></td>")
}

/// Appends what was taken of a lot, how long that was held, and what one unit of it cost.
fn push_taken(
    alloc: Global,
    text: &mut String,
    sold: Day,
    leg: &(LotKey, Units),
) -> Result<(), AllocError>
    ensures { OnOk result (string_bytes text.new
        ≡ string_bytes text.old ++ taken_cells sold leg.now) }
{
    let units = leg.1.text(alloc)?;
    push_number(text, units.as_str())?;
    let acquired = leg.0.day.text(alloc)?;
    push_plain(text, acquired.as_str())?;
    push_days(text, leg.0.day, sold)?;
    push_plain(text, term_of(leg.0.day, sold).as_str())?;
    push_label(text, &leg.0.label)?;
    let number = leg.0.number.text(alloc)?;
    push_number(text, number.as_str())
}

/// Appends how many days lie between two.
fn push_days(text: &mut String, first: Day, last: Day) -> Result<(), AllocError>
    ensures { OnOk result (string_bytes text.new
        ≡ string_bytes text.old ++ number_cell (signed_decimal (last -ℤ first))) }
{
    let mut digits = Buffer::new();
    push_number(text, digits.format(days_between(first, last)))
}

/// Returns the days from one day to another.
fn days_between(first: Day, last: Day) -> i32
    ensures { result ≡ last -ℤ first }
{
    last.number() - first.number()
}

/// Appends what a lot went for, what it cost and what it gained. Of an unpriced sale only the cost is
/// known.
fn push_result(
    alloc: Global,
    text: &mut String,
    leg: &(LotKey, Units),
    gain: &Option<Gain>,
) -> Result<(), AllocError>
    ensures { OnOk result (string_bytes text.new
        ≡ string_bytes text.old ++ result_cells leg.now gain.now) }
{
    match gain {
        Some(gain) => push_gained(alloc, text, leg, gain),
        None => push_unpriced(alloc, text, leg),
    }
}

/// Appends what a lot of a priced sale went for, what it cost and what it gained.
fn push_gained(
    alloc: Global,
    text: &mut String,
    leg: &(LotKey, Units),
    gain: &Gain,
) -> Result<(), AllocError>
    ensures { OnOk result (string_bytes text.new
        ≡ string_bytes text.old ++ gained_cells leg.now gain.now) }
{
    push_money(alloc, text, gain.proceeds)?;
    push_money(alloc, text, lot_cost(leg))?;
    push_money_gain(alloc, text, gain.gain)
}

/// Appends what a lot of an unpriced sale cost.
fn push_unpriced(alloc: Global, text: &mut String, leg: &(LotKey, Units)) -> Result<(), AllocError>
    ensures { OnOk result (string_bytes text.new
        ≡ string_bytes text.old ++ unpriced_cells leg.now) }
{
    text.push_str("<td class=\"n\"></td>")?;
    push_money(alloc, text, lot_cost(leg))?;
    text.push_str("<td class=\"n\">unpriced</td>")
}
