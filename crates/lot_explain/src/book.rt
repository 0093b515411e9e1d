//! The facts of a refusal that its book has, as they stand behind the last command.

use crate::fact::without_sign;
use crate::form::is_by_form;
use crate::known::{Entry, Known, Lot};
use crate::nearest::nearest;
use crate::refused::Refused;
use crate::shown::Shown;
use crate::transcript::Naming;
use lot_command::canonical::body;
use lot_command::{Amount, Command, Cost, Posting};
use lot_cost::LotKey;
use lot_inv::is_other_sign;
use lot_num::Units;
use std::alloc::{AllocError, Global};

/// Says which entry stands under the key of a command, and the first line in which they differ. Of the row of a broker file,
/// which doesn't show its postings, it says both lines.
pub(crate) fn key_reused(
    alloc: Global,
    known: &Known,
    refused: &Refused<'_>,
) -> Result<String, AllocError> {
    let Some(entry) = known.entry(refused.key.name)? else {
        return Ok(String::new(alloc));
    };
    let sent = body(alloc, refused.command)?;
    let (number, completes) = (entry.number, completing(alloc, entry, refused)?);
    match first_difference(entry.body.as_str(), sent.as_str()) {
        Difference::Has(line, other) => {
            let line = Shown(line.trim_start().as_bytes());
            let other = in_place_of(alloc, refused, other)?;
            let other = other.as_str();
            format!(in alloc; ": entry {number}, with the line `{line}`{other}{completes}")
        }
        Difference::Lacks(line) => {
            let line = Shown(line.trim_start().as_bytes());
            format!(in alloc; ": entry {number}, without the line `{line}`{completes}")
        }
        Difference::Absent => format!(in alloc; ": entry {number}{completes}"),
    }
}

/// Says which line a row has in the place of one of an entry. It is empty for a command of a ledger text.
fn in_place_of(alloc: Global, refused: &Refused<'_>, line: &str) -> Result<String, AllocError> {
    if !refused.commands.is_empty() || line.is_empty() {
        return Ok(String::new(alloc));
    }
    let line = Shown(line.trim_start().as_bytes());
    format!(in alloc; " in place of `{line}`")
}

/// Says that with an account for crumbs a command repeats an entry, which is a completion of it by
/// form, where none takes them.
fn completing(
    alloc: Global,
    entry: &Entry,
    refused: &Refused<'_>,
) -> Result<&'static str, AllocError> {
    let Command::Transaction(transaction) = refused.command else {
        return Ok("");
    };
    if refused.rounding.is_some() {
        return Ok("");
    }
    let completes = is_by_form(alloc, entry.body.as_str(), refused.cash, transaction)?;
    Ok(match refused.naming {
        _ if !completes => "",
        Naming::Options => "; with --rounding ACCOUNT it is a repeat",
        Naming::Profile => "; with rounding in [accounts] of the profile it is a repeat",
    })
}

/// The first difference of an entry from a text that was sent.
enum Difference<'a> {
    /// The entry has the first line there, and the other text the second, which is empty where it has ended.
    Has(&'a str, &'a str),
    /// The entry ends in front of this line of the other text.
    Lacks(&'a str),
    /// There is none.
    Absent,
}

/// Returns the first difference of the text of an entry from the text that was sent. Both end with a line end.
fn first_difference<'a>(standing: &'a str, sent: &'a str) -> Difference<'a> {
    let mut others = sent.split('\n');
    for line in standing.split('\n') {
        match others.next() {
            Some(other) if other == line => {}
            Some(other) if line.is_empty() => return Difference::Lacks(other),
            Some(other) => return Difference::Has(line, other),
            None => return Difference::Has(line, ""),
        }
    }
    Difference::Absent
}

/// Says which opened account has the name nearest to that of an account that wasn't opened. Without a book the opened
/// accounts are those that the text opens.
pub(crate) fn unknown_account(
    alloc: Global,
    known: &Known,
    refused: &Refused<'_>,
    posting: Option<&Posting>,
) -> Result<String, AllocError> {
    let account = match (refused.command, posting) {
        (Command::Closing(closing), _) => &closing.account,
        (_, Some(posting)) => &posting.account,
        _ => return Ok(String::new(alloc)),
    };
    let opened = known.accounts()?;
    let mut names = Vec::new(alloc);
    for account in opened {
        names.push(account.as_str())?;
    }
    for command in refused.commands {
        if let Command::Opening(opening) = command
            && opened.is_empty()
        {
            names.push(opening.account.as_str())?;
        }
    }
    match nearest(alloc, account.as_str(), &names)? {
        Some(name) if name == account.as_str() => {
            String::from_str(alloc, ": it is opened further down")
        }
        Some(name) => format!(in alloc; ": the nearest is {name}"),
        None => Ok(String::new(alloc)),
    }
}

/// Says on which day, and by which entry, the pair of a posting was last posted to with braces.
pub(crate) fn back_dated(
    alloc: Global,
    known: &Known,
    posting: &Posting,
) -> Result<String, AllocError> {
    let Some(amount) = &posting.amount else {
        return Ok(String::new(alloc));
    };
    let Some(latest) = known.latest(&posting.account, &amount.commodity)? else {
        return Ok(String::new(alloc));
    };
    let (day, entry) = (latest.day.text(alloc)?, latest.entry);
    let day = day.as_str();
    format!(in alloc; ": the latest is {day}, of entry {entry}")
}

/// Says how many lots the braces of a posting fit, what they hold, and in what they differ. Of a posting that takes more
/// than they hold it says both amounts. It says nothing where no lot of the commodity is held, or where the lots can't be
/// read.
pub(crate) fn fitting(
    alloc: Global,
    known: &Known,
    posting: &Posting,
    code: &str,
) -> Result<String, AllocError> {
    let Some(
        Amount {
            units,
            commodity,
            cost: Some(cost),
            ..
        },
    ) = &posting.amount
    else {
        return Ok(String::new(alloc));
    };
    let lots = known.lots(&posting.account, commodity)?;
    if lots.is_empty() {
        return Ok(String::new(alloc));
    }
    let (mut keys, mut held) = (Vec::new(alloc), Some(Units::ZERO));
    for lot in lots {
        if fits(lot, *units, cost) {
            held = sum(held, lot.units);
            keys.push(&lot.key)?;
        }
    }
    if code == "B3" {
        missing(alloc, held, *units)
    } else {
        choices(alloc, &keys, held)
    }
}

/// Returns the sum with more units, if it is in range.
fn sum(held: Option<Units>, more: Units) -> Option<Units> {
    held?.checked_add(more)
}

/// Says what fitting lots hold, and what is wanted of them, where that is more. A sum that is out of range isn't less.
fn missing(alloc: Global, held: Option<Units>, wanted: Units) -> Result<String, AllocError> {
    let wanted = without_sign(wanted);
    match held {
        Some(held) if without_sign(held).mantissa() < wanted.mantissa() => {
            let (held, wanted) = (without_sign(held).text(alloc)?, wanted.text(alloc)?);
            let (held, wanted) = (held.as_str(), wanted.as_str());
            format!(in alloc; ": held now: {held}; wanted: {wanted}")
        }
        _ => Ok(String::new(alloc)),
    }
}

/// Says how many lots fit where there is a choice, what they hold together, if that is in range, and in what they differ.
fn choices(alloc: Global, keys: &[&LotKey], held: Option<Units>) -> Result<String, AllocError> {
    let count = keys.len();
    if count < 2 {
        return Ok(String::new(alloc));
    }
    let parts = differing(alloc, keys)?;
    let parts = parts.as_str();
    match held {
        Some(held) => {
            let held = without_sign(held).text(alloc)?;
            let held = held.as_str();
            format!(in alloc; ": lots that fit now: {count}, with {held} units{parts}")
        }
        None => format!(in alloc; ": lots that fit now: {count}{parts}"),
    }
}

/// Returns whether units with that cost may be taken of a lot.
fn fits(lot: &Lot, units: Units, cost: &Cost) -> bool {
    let has_number = match cost {
        Cost::Each(_) => true,
        Cost::Whole(whole) => units.per_unit(whole.total()) == Some(lot.key.number),
    };
    let spec = match cost {
        Cost::Each(spec) => spec,
        Cost::Whole(whole) => whole.spec(),
    };
    is_other_sign(units, lot.units) && has_number && spec.fits(&lot.key)
}

/// Says in which parts lots differ, if they do.
fn differing(alloc: Global, keys: &[&LotKey]) -> Result<String, AllocError> {
    let mut text = String::new(alloc);
    let Some((first, others)) = keys.split_first() else {
        return Ok(text);
    };
    let (mut day, mut cost, mut currency, mut label) = (false, false, false, false);
    for key in others {
        day = day || key.day != first.day;
        cost = cost || key.number != first.number;
        currency = currency || key.currency != first.currency;
        label = label || key.label != first.label;
    }
    for (differs, part) in [
        (day, "day"),
        (cost, "cost"),
        (currency, "currency"),
        (label, "label"),
    ] {
        if differs {
            text.push_str(if text.is_empty() {
                "; they differ in "
            } else {
                ", "
            })?;
            text.push_str(part)?;
        }
    }
    Ok(text)
}
