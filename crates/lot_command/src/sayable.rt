//! Each command is within the rules of ledger text. The functions do nothing: their contracts state this for a caller.
ghost use Rattle.std.specs.Prelude.{IfSome};
ghost use Rattle.std.specs.List.{AllByRecursion};
ghost use Rattle.lot_base.specs.Day.{IsDayNumber};
ghost use Rattle.lot_base.specs.Name.{IsName, is_account, is_commodity, is_label, is_note};
ghost use Rattle.lot_num.specs.Amount.{IsRate, IsUnits};
ghost use Rattle.lot_command.specs.Sayable.{IsSayable, IsOpening, IsClosing, IsDeclaring, IsQuoting, IsTransaction};
ghost use Rattle.lot_command.specs.Sayable.{IsNarration, IsPosting, IsAmount, IsCost, IsSpec, IsPrice, AreCurrencies};

use crate::command::{Closing, Command, Declaring, Opening, Quoting};
use crate::currencies::Currencies;
use crate::price::Price;
use crate::transaction::{Amount, Narration, Posting, Transaction};
use lot_base::Commodity;
use lot_cost::{Cost, CostSpec};

/// States for a caller that each part of a command is within its rule. It does nothing.
pub fn is_sayable(command: &Command)
    ensures { IsSayable command.now }
{
    match command {
        Command::Opening(opening) => is_opening(opening),
        Command::Closing(closing) => is_closing(closing),
        Command::Declaring(declaring) => is_declaring(declaring),
        Command::Quoting(quoting) => is_quoting(quoting),
        Command::Transaction(transaction) => is_transaction(transaction),
    }
}

fn is_opening(opening: &Opening)
    ensures { IsOpening opening.now }
{
    let _ = opening.day.number();
    let _ = opening.account.as_str();
    are_currencies(&opening.currencies);
}

fn is_closing(closing: &Closing)
    ensures { IsClosing closing.now }
{
    let _ = closing.day.number();
    let _ = closing.account.as_str();
}

fn is_declaring(declaring: &Declaring)
    ensures { IsDeclaring declaring.now }
{
    let _ = declaring.day.number();
    let _ = declaring.commodity.as_str();
}

fn is_quoting(quoting: &Quoting)
    ensures { IsQuoting quoting.now }
{
    let _ = quoting.day.number();
    let _ = quoting.base.as_str();
    let _ = quoting.rate.mantissa();
    let _ = quoting.quote.as_str();
}

fn is_transaction(transaction: &Transaction)
    ensures { IsTransaction transaction.now }
{
    let _ = transaction.day.number();
    is_narration(&transaction.narration);
    are_postings(transaction.postings.as_slice());
}

fn is_narration(narration: &Option<Narration>)
    ensures { IfSome narration.now IsNarration }
{
    if let Some(narration) = narration {
        if let Some(payee) = &narration.payee {
            let _ = payee.as_str();
        }
        let _ = narration.text.as_str();
    }
}

fn are_postings(postings: &[Posting])
    ensures { AllByRecursion IsPosting postings.now }
{
    for posting in postings {
        is_posting(posting);
    }
}

fn is_posting(posting: &Posting)
    ensures { IsPosting posting.now }
{
    let _ = posting.account.as_str();
    if let Some(amount) = &posting.amount {
        is_amount(amount);
    }
}

fn is_amount(amount: &Amount)
    ensures { IsAmount amount.now }
{
    let _ = amount.units.mantissa();
    let _ = amount.commodity.as_str();
    is_cost(&amount.cost);
    is_price(&amount.price);
}

fn is_cost(cost: &Option<Cost>)
    ensures { IfSome cost.now IsCost }
{
    match cost {
        Some(Cost::Each(spec)) => is_spec(spec),
        Some(Cost::Whole(whole)) => {
            let _ = whole.total().mantissa();
            is_spec(whole.spec());
        }
        None => {}
    }
}

fn is_spec(spec: &CostSpec)
    ensures { IsSpec spec.now }
{
    if let Some(number) = spec.number {
        let _ = number.mantissa();
    }
    if let Some(currency) = &spec.currency {
        let _ = currency.as_str();
    }
    if let Some(day) = spec.day {
        let _ = day.number();
    }
    if let Some(label) = &spec.label {
        let _ = label.as_str();
    }
}

fn is_price(price: &Option<Price>)
    ensures { IfSome price.now IsPrice }
{
    match price {
        Some(Price::Each(price)) => {
            let _ = price.rate.mantissa();
            let _ = price.currency.as_str();
        }
        Some(Price::Whole(price)) => {
            let _ = price.total().mantissa();
            let _ = price.currency().as_str();
        }
        None => {}
    }
}

fn are_currencies(currencies: &Currencies)
    ensures { AreCurrencies currencies.now }
{
    are_commodities(currencies.as_slice());
}

fn are_commodities(commodities: &[Commodity])
    ensures { AllByRecursion (IsName is_commodity) commodities.now }
{
    for commodity in commodities {
        let _ = commodity.as_str();
    }
}
