//! Which number of a row doesn't have the sign that its kind asks for.

use lot_num::Units;
use lot_profile::{Kind, Role};
use lot_profile_text::Word;
use lot_roles::{RowFault, Rules, amount};
use lot_sheet::Row;
use std::alloc::{AllocError, Global};

/// What helps.
const ADVICE: &str = "`turn` names the roles that are printed the other way";

/// The sign of a number.
#[derive(Clone, Copy)]
enum Wanted {
    Above,
    Below,
    NotBelow,
}

impl Wanted {
    /// Returns whether a number has it.
    fn is_of(self, number: Units) -> bool {
        match self {
            Wanted::Above => number > Units::ZERO,
            Wanted::Below => number < Units::ZERO,
            Wanted::NotBelow => number >= Units::ZERO,
        }
    }

    /// Returns what a number with it is.
    fn word(self) -> &'static str {
        match self {
            Wanted::Above => "above zero",
            Wanted::Below => "below zero",
            Wanted::NotBelow => "zero or above",
        }
    }
}

/// Returns which signs a kind asks for.
fn signs_of(kind: Kind) -> &'static [(Role, Wanted)] {
    match kind {
        Kind::Buy => &[(Role::Units, Wanted::Above), (Role::Amount, Wanted::Below)],
        Kind::Sell | Kind::CancelBuy => &[
            (Role::Units, Wanted::Below),
            (Role::Amount, Wanted::NotBelow),
        ],
        Kind::Deposit => &[(Role::Amount, Wanted::Above)],
        Kind::Withdrawal => &[(Role::Amount, Wanted::Below)],
        Kind::Reward => &[
            (Role::Units, Wanted::Above),
            (Role::Amount, Wanted::NotBelow),
        ],
        Kind::TransferIn => &[(Role::Units, Wanted::Above), (Role::Cost, Wanted::NotBelow)],
        _ => &[],
    }
}

/// Returns which number of a row has another sign than its kind asks for, and what it is. The only error is out of memory.
pub(crate) fn wrong_sign(alloc: Global, rules: &Rules, row: &Row) -> Result<String, AllocError> {
    let kind = rules.kind.kind;
    let word = kind.word();
    for (role, wanted) in signs_of(kind) {
        let (role, wanted) = (*role, *wanted);
        if let Some(number) = number_of(rules, row, role)?
            && !wanted.is_of(number)
        {
            let number = number.text(alloc)?;
            let (role, wanted, number) = (role.word(), wanted.word(), number.as_str());
            return format!(in alloc; "{word}: {role} has to be {wanted}, is {number}: {ADVICE}");
        }
    }
    match kind {
        Kind::Exchange => exchanged(alloc, rules, row),
        _ => format!(in alloc; "{word}: its numbers don't have the signs of its kind: {ADVICE}"),
    }
}

/// Returns the same of an exchange. The only error is out of memory.
fn exchanged(alloc: Global, rules: &Rules, row: &Row) -> Result<String, AllocError> {
    let Some(other) = number_of(rules, row, Role::Other)? else {
        return String::from_str(
            alloc,
            "exchange: amount has to be above or below zero, is 0",
        );
    };
    let amount = number_of(rules, row, Role::Amount)?.unwrap_or(Units::ZERO);
    let (amount, other) = (amount.text(alloc)?, other.text(alloc)?);
    let (amount, other) = (amount.as_str(), other.as_str());
    format!(in alloc;
        "exchange: one of amount and other has to be above zero, the other below, they are {amount} and {other}: {ADVICE}"
    )
}

/// Returns the number of a role in a row, where it has one. The only error is out of memory.
fn number_of(rules: &Rules, row: &Row, role: Role) -> Result<Option<Units>, AllocError> {
    match amount(rules, row, role) {
        Ok(number) => Ok(number),
        Err(RowFault::Memory) => Err(AllocError),
        Err(_) => Ok(None),
    }
}
