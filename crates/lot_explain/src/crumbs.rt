//! What was found of the crumbs of a refused command: the postings that would balance it, or why its
//! completion isn't accepted.

use crate::bound::{excess, least_bound};
use crate::explained::find;
use crate::fact::postings_of;
use crate::finding::Finding;
use crate::refused::{Refused, item};
use crate::said::{Said, heard};
use crate::split::why;
use crate::transcript::Naming;
use lot_base::{Account, Commodity};
use lot_command::canonical::body;
use lot_command::{Command, Posting};
use lot_num::Wide;
use lot_rounding::{Bound, Rounding};
use lot_syntax::Lines;
use std::alloc::{AllocError, Global};

/// Returns what was found of the crumbs of a refused command, with a semicolon before it, or nothing.
/// The only error is out of memory.
pub(crate) fn crumbs(alloc: Global, refused: &Refused<'_>) -> Result<String, AllocError> {
    match refused.finding {
        Some(finding) if matches!(refused.said.code, "B5" | "L12" | "L14") => {
            told(alloc, refused, finding)
        }
        _ => Ok(String::new(alloc)),
    }
}

/// Says what was found.
fn told(alloc: Global, refused: &Refused<'_>, finding: &Finding) -> Result<String, AllocError> {
    match (finding, refused.rounding) {
        (
            Finding::Balances {
                completion,
                largest,
            },
            None,
        ) => balancing(alloc, refused, completion.as_str(), *largest),
        (Finding::Beyond { currency, crumb }, Some(rounding)) => {
            beyond(alloc, refused.naming, currency, *crumb, rounding.within)
        }
        (Finding::Refused { reply }, Some(rounding)) => {
            refusal(alloc, refused.command, reply, &rounding.account)
        }
        (Finding::Unsplit(fault), _) => {
            let why = why(*fault);
            format!(in alloc; "; there is no split: {why}")
        }
        _ => Ok(String::new(alloc)),
    }
}

/// Says which postings would balance a command, by the text of its completion: those in the place of
/// its own, and those behind; and the option that adds them, where there is one.
fn balancing(
    alloc: Global,
    refused: &Refused<'_>,
    completion: &str,
    largest: Wide,
) -> Result<String, AllocError> {
    let written = body(alloc, refused.command)?;
    let mut text = String::new(alloc);
    let mut others = written.as_str().lines();
    for line in completion.lines() {
        let posting = match others.next() {
            Some(other) if other == line => continue,
            Some(_) => in_its_place(alloc, line)?,
            None => behind(alloc, line)?,
        };
        text.push_str(if text.is_empty() {
            "; it would balance with "
        } else {
            ", "
        })?;
        text.push_str(posting.as_str())?;
    }
    if !text.is_empty() {
        text.push_str(option(alloc, refused.naming, largest)?.as_str())?;
    }
    Ok(text)
}

/// Shows the line of a posting that stands in the place of another.
fn in_its_place(alloc: Global, line: &str) -> Result<String, AllocError> {
    let posting = line.trim_start();
    format!(in alloc; "`{posting}` in its place")
}

/// Shows the line of a posting for crumbs, with a word in the place of the account that takes them.
fn behind(alloc: Global, line: &str) -> Result<String, AllocError> {
    let amount = match line.trim_start().split_once(' ') {
        Some((_, amount)) => amount,
        None => "",
    };
    format!(in alloc; "`ACCOUNT {amount}`")
}

/// Names the option by which an account takes crumbs of which the largest is so large, or nothing
/// where it takes none as large.
fn option(alloc: Global, naming: Naming, largest: Wide) -> Result<String, AllocError> {
    let Some(bound) = least_bound(largest) else {
        return Ok(String::new(alloc));
    };
    let (account, within) = match naming {
        Naming::Options => ("--rounding ACCOUNT", " --within "),
        Naming::Profile => ("rounding in [accounts] of the profile", " and within = "),
    };
    if Bound::half_a_cent().allows(largest) {
        return format!(in alloc; ": {account} adds that");
    }
    let bound = bound.units().text(alloc)?;
    let bound = bound.as_str();
    let quote = match naming {
        Naming::Options => "",
        Naming::Profile => "\"",
    };
    format!(in alloc; ": {account}{within}{quote}{bound}{quote} adds that")
}

/// Says how large a crumb is, and by how much that is too much.
fn beyond(
    alloc: Global,
    naming: Naming,
    currency: &Commodity,
    crumb: Wide,
    bound: Bound,
) -> Result<String, AllocError> {
    if bound.allows(crumb) {
        return Ok(String::new(alloc));
    }
    let (amount, more) = (
        crumb.text_money(alloc)?,
        excess(bound, crumb).text_money(alloc)?,
    );
    let (amount, more, currency) = (amount.as_str(), more.as_str(), currency.as_str());
    let within = match naming {
        Naming::Options => "--within",
        Naming::Profile => "within of the profile",
    };
    format!(in alloc; "; its crumb is {amount} {currency}, {more} more than {within} allows")
}

/// Says why the completion of a command with an account for crumbs is refused, by the reply to it.
fn refusal(
    alloc: Global,
    command: &Command,
    reply: &[u8],
    account: &Account,
) -> Result<String, AllocError> {
    let said = match Lines::new(reply).next() {
        Some(line) => heard(line),
        None => None,
    };
    let Some(said) = said else {
        return Ok(String::new(alloc));
    };
    let Some(code) = find(said.code) else {
        return Ok(String::new(alloc));
    };
    let what = as_what(command);
    match place_of(command, &said, account) {
        // What a completion leaves is in a currency that has no product.
        currency if said.code == "L14" => {
            format!(in alloc; "; {currency} has no cost or price here, so no crumb is taken in it")
        }
        "" => format!(in alloc; "; {what} it is refused: {code}"),
        place => format!(in alloc; "; {what} it is refused: {code} {place}"),
    }
}

/// Returns as what a command is refused: as a split, for which a unit without cost stands alone, or with its crumbs.
fn as_what(command: &Command) -> &'static str {
    match postings_of(command) {
        [posting] if is_plain(posting) => "as a split",
        _ => "with its crumbs",
    }
}

/// Returns whether a posting has units alone.
fn is_plain(posting: &Posting) -> bool {
    match &posting.amount {
        Some(amount) => amount.cost.is_none() && amount.price.is_none(),
        None => false,
    }
}

/// Returns the account of the posting at which a completion is refused, or else the currency in which
/// it is. The postings for crumbs are those of an account, behind the command's own.
fn place_of<'a>(command: &'a Command, said: &'a Said<'_>, account: &'a Account) -> &'a str {
    match said.posting {
        Some(number) => match item(postings_of(command), number) {
            Some(posting) => posting.account.as_str(),
            None => account.as_str(),
        },
        None => said.word,
    }
}
