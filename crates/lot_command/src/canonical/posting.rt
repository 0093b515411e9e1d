ghost use Rattle.std.specs.Prelude.{◌≡◌, ◌++◌, IfOk, OnOk, flat_map, map, option_map};
ghost use Rattle.std.specs.String.{string_bytes};
ghost use Rattle.lot_base.specs.Day.{day_text};
ghost use Rattle.lot_command.specs.Canonical.{posting_text, part, amount_part, cost_text, price_text};
ghost use Rattle.lot_command.specs.Canonical.{parts_text, given, money, rate_text, in_quotes};

use crate::price::Price;
use crate::transaction::{Amount, Posting};
use lot_base::{Commodity, Day, Label};
use lot_cost::{Cost, CostSpec};
use lot_num::Rate;
use std::alloc::{AllocError, Global};

/// Appends the lines of postings.
pub(super) fn push_postings(
    alloc: Global,
    text: &mut String,
    postings: &[Posting],
) -> Result<(), AllocError>
    ensures { OnOk result
        (string_bytes text.new ≡ string_bytes text.old ++ flat_map posting_text postings.now) }
{
    for posting in postings {
        let account = &posting.account;
        let amount = given_amount_part(alloc, &posting.amount)?;
        write!(text, "  {account}{amount}\n")?;
    }
    Ok(())
}

fn given_amount_part(alloc: Global, amount: &Option<Amount>) -> Result<String, AllocError>
    ensures { IfOk result (λ text. string_bytes text ≡ part amount_part amount.now) }
{
    match amount {
        Some(amount) => amount_part(alloc, amount),
        None => Ok(String::new(alloc)),
    }
}

/// Returns a space, the units and their commodity, then cost and price, where there are such.
fn amount_part(alloc: Global, amount: &Amount) -> Result<String, AllocError>
    ensures { IfOk result (λ text. string_bytes text ≡ amount_part amount.now) }
{
    let units = amount.units.text(alloc)?;
    let commodity = &amount.commodity;
    let cost = cost_part(alloc, &amount.cost)?;
    let price = price_part(alloc, &amount.price)?;
    format!(in alloc; " {units} {commodity}{cost}{price}")
}

fn cost_part(alloc: Global, cost: &Option<Cost>) -> Result<String, AllocError>
    ensures { IfOk result (λ text. string_bytes text ≡ part cost_text cost.now) }
{
    match cost {
        Some(Cost::Each(spec)) => {
            let number = number_text(alloc, spec.number)?;
            let parts = parts_text(alloc, number, spec)?;
            format!(in alloc; " {{{parts}}}")
        }
        Some(Cost::Whole(whole)) => {
            let total = whole.total().text(alloc)?;
            let parts = parts_text(alloc, Some(total), whole.spec())?;
            format!(in alloc; " {{{{{parts}}}}}")
        }
        None => Ok(String::new(alloc)),
    }
}

/// Returns the parts of a cost, its number as a text.
fn parts_text(alloc: Global, number: Option<String>, spec: &CostSpec) -> Result<String, AllocError>
    ensures { IfOk result
        (λ text. string_bytes text ≡ parts_text (option_map string_bytes number) spec.now) }
{
    let mut parts = Vec::new(alloc);
    push_given(&mut parts, money(alloc, number, &spec.currency)?)?;
    push_given(&mut parts, day_text(alloc, spec.day)?)?;
    push_given(&mut parts, label_text(alloc, &spec.label)?)?;
    parts.join(alloc, ", ")
}

/// Appends a part, where there is one.
fn push_given(parts: &mut Vec<String>, part: Option<String>) -> Result<(), AllocError>
    ensures { OnOk result (map string_bytes parts.new.items
        ≡ map string_bytes parts.old.items ++ given (option_map string_bytes part)) }
{
    if let Some(part) = part {
        parts.push(part)?;
    }
    Ok(())
}

/// Returns a number and a currency, with a space between them where both are given.
fn money(
    alloc: Global,
    number: Option<String>,
    currency: &Option<Commodity>,
) -> Result<Option<String>, AllocError>
    ensures { IfOk result (λ text.
        option_map string_bytes text ≡ money (option_map string_bytes number) currency.now) }
{
    match (number, currency) {
        (Some(number), Some(currency)) => Ok(Some(format!(in alloc; "{number} {currency}")?)),
        (None, Some(currency)) => Ok(Some(currency.to_string(alloc)?)),
        (number, None) => Ok(number),
    }
}

fn number_text(alloc: Global, number: Option<Rate>) -> Result<Option<String>, AllocError>
    ensures { IfOk result (λ text. option_map string_bytes text ≡ option_map rate_text number) }
{
    match number {
        Some(number) => Ok(Some(number.text(alloc)?)),
        None => Ok(None),
    }
}

fn day_text(alloc: Global, day: Option<Day>) -> Result<Option<String>, AllocError>
    ensures { IfOk result (λ text. option_map string_bytes text ≡ option_map day_text day) }
{
    match day {
        Some(day) => Ok(Some(day.text(alloc)?)),
        None => Ok(None),
    }
}

fn label_text(alloc: Global, label: &Option<Label>) -> Result<Option<String>, AllocError>
    ensures { IfOk result (λ text. option_map string_bytes text ≡ option_map in_quotes label.now) }
{
    match label {
        Some(label) => Ok(Some(format!(in alloc; "\"{label}\"")?)),
        None => Ok(None),
    }
}

fn price_part(alloc: Global, price: &Option<Price>) -> Result<String, AllocError>
    ensures { IfOk result (λ text. string_bytes text ≡ part price_text price.now) }
{
    match price {
        Some(Price::Each(price)) => {
            let rate = price.rate.text(alloc)?;
            let currency = &price.currency;
            format!(in alloc; " @ {rate} {currency}")
        }
        Some(Price::Whole(price)) => {
            let total = price.total().text(alloc)?;
            let currency = price.currency();
            format!(in alloc; " @@ {total} {currency}")
        }
        None => Ok(String::new(alloc)),
    }
}
