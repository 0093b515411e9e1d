//! The accounts that a row is posted to.
ghost use Rattle.std.specs.Prelude.{◌≡◌, IfOk};
ghost use Rattle.std.specs.Option.{option_map};
ghost use Rattle.std.specs.String.{string_bytes};
ghost use Rattle.lot_roles.specs.Accounts.{account_of, as_account, name_of, piece_text};
ghost use Rattle.lot_roles.specs.Reading.{Gives};

use crate::fault::RowFault;
use crate::names::symbol_text;
use crate::parts::text;
use crate::rules::{Rules, pieces};
use lot_base::{Account, NameFault};
use lot_field::Text;
use lot_profile::{AccountRole, Piece, Role};
use lot_sheet::Row;
use std::alloc::{AllocError, Global};

/// Returns the account for something, where a row posts that currency: its pieces, one after another. Those that the kind names
/// go before those of the profile.
///
/// The error is `NoAccount` where neither names one, or where a piece has no value in this row; else `BadAccount` where what
/// the pieces come to is no account. Else it is `Memory`.
#[tactic(auto, unfolding(crate::specs::Accounts::account_of))]
pub fn account(
    alloc: Global,
    rules: &Rules,
    row: &Row,
    role: AccountRole,
    currency: &str,
) -> Result<Account, RowFault>
    ensures { Gives result (account_of rules.now row.now role currency.now) }
{
    let Some(pieces) = pieces(rules, role) else {
        return Err(RowFault::NoAccount(role));
    };
    let account = text(alloc, rules, row, Role::Account)?;
    let symbol = symbol_text(alloc, rules, row)?;
    let values = Values {
        account: &account,
        currency,
        symbol: &symbol,
    };
    match name(alloc, pieces, values)? {
        Some(name) => as_account(alloc, name.as_str(), role),
        None => Err(RowFault::NoAccount(role)),
    }
}

/// What pieces may stand for in a row.
#[derive(Clone, Copy)]
struct Values<'a> {
    account: &'a Option<Text>,
    currency: &'a str,
    symbol: &'a Option<Text>,
}

/// Returns the name that pieces make, or `None` where one of them has no value. The only error is out of memory.
fn name(alloc: Global, pieces: &[Piece], values: Values) -> Result<Option<String>, AllocError>
    ensures { IfOk result (λ name. option_map string_bytes name ≡ name_of
        (piece_text values.entry.account.now values.entry.currency.now
        values.entry.symbol.now) pieces.now) }
{
    let mut name = String::new(alloc);
    for piece in pieces {
        let Some(text) = piece_text(piece, values) else {
            return Ok(None);
        };
        name.push_str(text)?;
    }
    Ok(Some(name))
}

/// Returns what a piece stands for, if it has a value.
fn piece_text<'a>(piece: &'a Piece, values: Values<'a>) -> Option<&'a str>
    ensures { option_map (λ text. text.now) result
        ≡ piece_text values.entry.account.now values.entry.currency.now
        values.entry.symbol.now piece.now }
{
    match piece {
        Piece::Text(text) => Some(text.as_str()),
        Piece::Account => Some(values.account.as_ref()?.as_str()),
        Piece::Currency => Some(values.currency),
        Piece::Symbol => Some(values.symbol.as_ref()?.as_str()),
    }
}

/// Returns a name as the account for something.
fn as_account(alloc: Global, name: &str, role: AccountRole) -> Result<Account, RowFault>
    ensures { Gives result (as_account role name.now) }
{
    match Account::new(alloc, name) {
        Ok(account) => Ok(account),
        Err(NameFault::Memory) => Err(RowFault::Memory),
        Err(_) => Err(RowFault::BadAccount(role)),
    }
}
