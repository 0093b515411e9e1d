//! Why a row of an export says nothing that can be posted.

use crate::figures::disagreement;
use crate::signs::wrong_sign;
use lot_explain::{Cause, Shown, cause_of};
use lot_profile::{AccountRole, KindRule, Profile, Role, Table};
use lot_profile_text::Word;
use lot_roles::{RowFault, Rules, kind_of, text};
use lot_sheet::Row;
use std::alloc::{AllocError, Global};

/// Returns why a row says nothing that can be posted. The only error is out of memory.
pub(crate) fn why(
    alloc: Global,
    profile: &Profile,
    row: &Row,
    fault: RowFault,
) -> Result<String, AllocError> {
    match fault {
        RowFault::TwoKinds { first, second } => two_kinds(alloc, profile, row, first, second),
        RowFault::NotNumber(role) => no_number(alloc, profile, row, role),
        RowFault::NoAccount(role) => {
            account(alloc, role, "isn't named, or a part of it has no value")
        }
        RowFault::BadAccount(role) => account(alloc, role, "comes to no account"),
        RowFault::Signs => match rules_of(profile, row) {
            Some(rules) => wrong_sign(alloc, &rules, row),
            None => plain(alloc, "Signs"),
        },
        RowFault::Disagree => match rules_of(profile, row) {
            Some(rules) => disagreement(alloc, &rules, row),
            None => plain(alloc, "Disagree"),
        },
        _ => match of_role(fault) {
            Some((role, what)) => field(alloc, profile, row, role, what),
            None => plain(alloc, name_of(fault)),
        },
    }
}

/// Returns the role whose value is at fault, and what is said of it, if it is one alone.
fn of_role(fault: RowFault) -> Option<(Role, &'static str)> {
    Some(match fault {
        RowFault::Missing(role) => (role, "has no value"),
        RowFault::TooManyDecimals(role) => (role, "has more than eight decimals"),
        RowFault::TooLarge(role) => (role, "is out of range"),
        RowFault::BelowZero(role) => (role, "is below zero"),
        RowFault::NotCommodity(Role::Symbol) => (
            Role::Symbol,
            "is no commodity: [symbols] of the profile may name one for it",
        ),
        RowFault::NotCommodity(role) => (
            role,
            "is no commodity, as USD is: a column may be another, or a constant name it",
        ),
        RowFault::NotDay(role) => (role, "is no day in the form of the profile"),
        RowFault::NotTime => (Role::Time, "is no time"),
        _ => return None,
    })
}

/// Returns the name of the cause, of those where nothing of the row is shown.
fn name_of(fault: RowFault) -> &'static str {
    match fault {
        RowFault::NoKind => "NoKind",
        RowFault::NotRatio => "Ratio",
        RowFault::RatioTooLarge => "RatioTooLarge",
        RowFault::NothingAdded => "NothingAdded",
        RowFault::RateZero => "Rate",
        RowFault::TaxSign => "TaxSign",
        RowFault::BookedAtOdds => "Booked",
        RowFault::BookedSign => "BookedSign",
        RowFault::SameCurrency => "SameCurrency",
        RowFault::CostDayLater => "CostDay",
        RowFault::PriceApart => "PriceApart",
        RowFault::PriceSign => "PriceSign",
        RowFault::CancelledSale => "CancelledSale",
        _ => "",
    }
}

/// Returns what a cause says, and what helps. The only error is out of memory.
pub(crate) fn plain(alloc: Global, name: &str) -> Result<String, AllocError> {
    match cause_of(name) {
        Some(Cause { brief, help, .. }) => format!(in alloc; "{brief}: {help}"),
        None => String::from_str(alloc, "it says nothing that can be posted"),
    }
}

/// Returns of which two kinds a row is, each with its number among those of its table. The only error is out of memory.
fn two_kinds(
    alloc: Global,
    profile: &Profile,
    row: &Row,
    first: usize,
    second: usize,
) -> Result<String, AllocError> {
    let kinds = match table_of(profile, row) {
        Some(table) => table.kinds.as_slice(),
        None => &[],
    };
    let (one, other) = (word_at(kinds, first), word_at(kinds, second));
    format!(in alloc;
        "it is of two kinds of the profile: {one}, the [[kind]] {first}, and {other}, the [[kind]] {second}"
    )
}

/// Returns the word of the kind of that number, from 1, or nothing.
fn word_at(kinds: &[KindRule], number: usize) -> &'static str {
    match kinds.get(number.saturating_sub(1)) {
        Some(rule) => rule.kind.word(),
        None => "",
    }
}

/// Returns what is said of an account. The only error is out of memory.
fn account(alloc: Global, role: AccountRole, what: &str) -> Result<String, AllocError> {
    let role = role.word();
    format!(in alloc; "the account {role} {what}")
}

/// Returns what is said of the value of a role, which is shown where there is one. The only error is out of memory.
fn field(
    alloc: Global,
    profile: &Profile,
    row: &Row,
    role: Role,
    what: &str,
) -> Result<String, AllocError> {
    let value = value(alloc, profile, row, role)?;
    beside(alloc, role, what, value.as_str())
}

/// Returns what is said of a value that is no number. The only error is out of memory.
fn no_number(
    alloc: Global,
    profile: &Profile,
    row: &Row,
    role: Role,
) -> Result<String, AllocError> {
    let value = value(alloc, profile, row, role)?;
    let what = if is_whole(value.as_str()) {
        "is too large"
    } else {
        "is no number, or too large"
    };
    beside(alloc, role, what, value.as_str())
}

/// Returns what is said of a role beside its value, where it has one. The only error is out of memory.
fn beside(alloc: Global, role: Role, what: &str, value: &str) -> Result<String, AllocError> {
    let (role, shown) = (role.word(), Shown(value.as_bytes()));
    if value.is_empty() {
        format!(in alloc; "{role} {what}")
    } else {
        format!(in alloc; "{role} {what}: `{shown}`")
    }
}

/// Returns whether a text is digits alone, with a sign or none before them.
fn is_whole(text: &str) -> bool {
    let digits = text.trim_start_matches(['-', '+']);
    !digits.is_empty() && digits.bytes().all(|byte| byte.is_ascii_digit())
}

/// Returns the value of a role in a row, or nothing. The only error is out of memory.
fn value(alloc: Global, profile: &Profile, row: &Row, role: Role) -> Result<String, AllocError> {
    let Some(rules) = rules_of(profile, row) else {
        return Ok(String::new(alloc));
    };
    match text(alloc, &rules, row, role) {
        Ok(Some(value)) => String::from_str(alloc, value.as_str()),
        Ok(None) => Ok(String::new(alloc)),
        Err(_) => Err(AllocError),
    }
}

/// Returns the rules by which a row is read, if it is of one kind.
fn rules_of<'a>(profile: &'a Profile, row: &Row) -> Option<Rules<'a>> {
    let table = table_of(profile, row)?;
    match kind_of(&profile.file, table, row) {
        Ok(kind) => Some(Rules {
            profile,
            table,
            kind,
        }),
        Err(_) => None,
    }
}

/// Returns the table of a row.
fn table_of<'a>(profile: &'a Profile, row: &Row) -> Option<&'a Table> {
    profile.tables.as_slice().get(row.table())
}
