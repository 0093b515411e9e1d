//! The facts of a refusal: what the text of the command says of it, and the book.

ghost use Rattle.std.specs.Prelude.{◌≡◌, None, Some};
ghost use Rattle.lot_import.specs.Deal.{IsCommandOf, exact_cash};
ghost use Rattle.lot_import.specs.declared.accounts.Accounts.{Accounts as AccountsOf};
ghost use Rattle.lot_rounding.specs.Nearest.{most_decimals};
ghost use Rattle.lot_explain.specs.Crumbs.{postings_in};

use crate::book::{back_dated, fitting, key_reused, unknown_account};
use crate::known::Known;
use crate::refused::{Refused, item};
use crate::residual::residual;
use lot_command::{Amount, Command, Cost, Posting};
use lot_import::{Action, Row};
use lot_num::{NumberFault, Rate, Units, Wide, weight};
use lot_rounding::{Decimals, Rounding, RowCash, rounded};
use std::alloc::{AllocError, Global};

/// How many decimals an amount may have.
const DECIMALS: usize = 8;

/// One, at the scale of units and rates.
const ONE: u128 = 100_000_000;

/// Returns what there is to say of the refusal of a command beside its rule, with a colon before
/// it. It is empty where there is nothing to say. The only error is out of memory.
pub(crate) fn fact(
    alloc: Global,
    known: &Known,
    refused: &Refused<'_>,
) -> Result<String, AllocError> {
    let (said, postings) = (refused.said, postings_of(refused.command));
    match (said.code, posting_of(refused)) {
        ("L1", _) => key_reused(alloc, known, refused),
        ("L3", posting) => unknown_account(alloc, known, refused, posting),
        ("L8", _) => {
            let count = postings.len();
            format!(in alloc; ": there are {count}")
        }
        ("L10", Some(posting)) => back_dated(alloc, known, posting),
        ("L12" | "L14", _) => left_over(alloc, postings, said.word),
        ("B2" | "B3", Some(posting)) => fitting(alloc, known, posting, said.code),
        ("B4", Some(posting)) => nothing_to_sell(alloc, posting),
        ("B5", Some(posting)) => quotient(alloc, posting),
        _ => Ok(String::new(alloc)),
    }
}

/// Names the account for which a command is refused, and the currency where it is refused for that:
/// the row of a broker file doesn't show them. It is empty for any other refusal. The only error is
/// out of memory.
pub(crate) fn named(alloc: Global, refused: &Refused<'_>) -> Result<String, AllocError> {
    let said = refused.said;
    let posting = match said.code {
        "L13" => without_amount(postings_of(refused.command)),
        _ => posting_of(refused),
    };
    let Some(Posting { account, amount }) = posting else {
        return Ok(String::new(alloc));
    };
    let account = account.as_str();
    match (said.code, amount) {
        ("L3" | "L4" | "L5", _) => format!(in alloc; ": {account}"),
        ("L7", Some(amount)) => {
            let currency = amount.commodity.as_str();
            format!(in alloc; ": {account}, {currency}")
        }
        ("L13", _) => {
            let currency = said.word;
            format!(in alloc; ": {account}, {currency}")
        }
        _ => Ok(String::new(alloc)),
    }
}

/// Returns the first posting without an amount.
fn without_amount(postings: &[Posting]) -> Option<&Posting> {
    for posting in postings {
        if posting.amount.is_none() {
            return Some(posting);
        }
    }
    None
}

/// Returns the posting at which a command was refused, if it was at one.
fn posting_of<'a>(refused: &Refused<'a>) -> Option<&'a Posting> {
    item(postings_of(refused.command), refused.said.posting?)
}

/// Returns the postings of a command, none where it is no transaction.
pub(crate) fn postings_of(command: &Command) -> &[Posting]
    ensures { result.now ≡ postings_in command.now }
{
    match command {
        Command::Transaction(transaction) => transaction.postings.as_slice(),
        _ => &[],
    }
}

/// Says what postings leave in a currency.
fn left_over(alloc: Global, postings: &[Posting], currency: &str) -> Result<String, AllocError> {
    match residual(postings, currency) {
        Some(sum) => amount_left(alloc, ": they leave ", sum, currency),
        None => Ok(String::new(alloc)),
    }
}

/// Says an amount of a currency, and how many decimals it has where these are too many.
fn amount_left(
    alloc: Global,
    before: &str,
    sum: Wide,
    currency: &str,
) -> Result<String, AllocError> {
    let text = sum.text_money(alloc)?;
    let amount = text.as_str();
    match amount.split_once('.') {
        Some((_, decimals)) if decimals.len() > DECIMALS => {
            let count = decimals.len();
            format!(in alloc; "{before}{amount} {currency}, which has {count} decimals")
        }
        _ => format!(in alloc; "{before}{amount} {currency}"),
    }
}

/// Says of a posting that sells that there is nothing to sell: its braces were to open a lot.
fn nothing_to_sell(alloc: Global, posting: &Posting) -> Result<String, AllocError> {
    match &posting.amount {
        Some(amount) if amount.units.mantissa() < 0 => {
            String::from_str(alloc, ": it sells, and no lot is held that it can take")
        }
        _ => Ok(String::new(alloc)),
    }
}

/// Says what the whole cost of a posting comes to for a unit.
fn quotient(alloc: Global, posting: &Posting) -> Result<String, AllocError> {
    let Some(
        Amount {
            units,
            cost: Some(Cost::Whole(whole)),
            ..
        },
    ) = &posting.amount
    else {
        return Ok(String::new(alloc));
    };
    let divisor = u128::from(units.mantissa().unsigned_abs());
    let total = u128::from(whole.total().mantissa().unsigned_abs()) * ONE;
    let (Some(each), Some(rest)) = (total.checked_div(divisor), total.checked_rem(divisor)) else {
        return Ok(String::new(alloc));
    };
    let more = if rest == 0 { "" } else { ".." };
    let limit = if each < u128::from(Rate::LIMIT) {
        ""
    } else {
        ", which is too large for the cost of a unit"
    };
    let (total, units) = (
        whole.total().text(alloc)?,
        without_sign(*units).text(alloc)?,
    );
    let (total, units) = (total.as_str(), units.as_str());
    let (whole, decimals) = (each / ONE, each % ONE);
    format!(in alloc; ": {total} / {units} = {whole}.{decimals:08}{more}{limit}")
}

/// Returns the same units without their sign.
pub(crate) fn without_sign(units: Units) -> Units {
    if units.mantissa() < 0 {
        units.negated()
    } else {
        units
    }
}

/// Says the cash that a row moves, and names the option by which it is rounded, where that helps and
/// no account takes crumbs.
pub(crate) fn cash(
    alloc: Global,
    row: &Row,
    rounding: Option<&Rounding>,
) -> Result<String, AllocError> {
    let Some(moved) = moved(row) else {
        return Ok(String::new(alloc));
    };
    let mut text = amount_left(alloc, ": ", moved, row.currency.as_str())?;
    if rounding.is_none() && rounded(moved, Decimals::of_units()).to_units().is_some() {
        text.push_str("; --rounding ACCOUNT rounds it")?;
    }
    Ok(text)
}

/// Returns the cash that a row moves, by its command, in which it isn't rounded.
pub(crate) fn row_cash(row: &Row, command: &Command) -> Option<RowCash>
    ensures { (accounts : AccountsOf) → IsCommandOf accounts None row.now command.now
        → result ≡ exact_cash (Some most_decimals) row.now }
{
    // It stands behind the fee, if there is one.
    let place = if row.fee.mantissa() == 0 { 1 } else { 2 };
    let posting = postings_of(command).get(place)?;
    match &posting.amount {
        Some(amount) => Some(RowCash {
            place,
            exact: amount.units.wide(),
        }),
        None => None,
    }
}

/// Returns the cash that a row moves, without its sign, where it is in range.
fn moved(row: &Row) -> Option<Wide> {
    let worth = weight(row.units, row.price);
    let fee = weight(Units::from_mantissa(100_000_000)?, row.fee);
    worth.checked_add(match row.action {
        Action::Buy => fee,
        Action::Sell => fee.negated(),
    })
}

/// Returns why a number is outside its rule, whatever its kind is, or `None` where it can't be
/// told.
pub(crate) fn number_fault(text: &str) -> Option<NumberFault> {
    match (
        Units::parse(text),
        Units::parse_total(text),
        Rate::parse(text),
    ) {
        (Err(fault), _, _) | (_, Err(fault), _) | (_, _, Err(fault)) => Some(fault),
        _ => None,
    }
}
