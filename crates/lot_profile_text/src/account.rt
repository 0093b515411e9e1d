//! The accounts that a profile names.
ghost use Rattle.std.specs.Prelude.{◌≡◌, ◌+◌, ◌<◌, None, Some, IfOk, IfSome, IsUtf8, MatchOption, drop, length};
ghost use Rattle.std.specs.List.{before_first, flat_map, list_all};
ghost use Rattle.std.specs.String.{string_bytes};
ghost use Rattle.lot_field.specs.Field.{behind};
ghost use Rattle.lot_profile_text.specs.Accounts.{account_in, account_of, account_said, first_if, first_piece, first_text, is_brace, is_text, names_account, piece_filled, piece_written};
ghost use Rattle.lot_profile_text.specs.Reading.{Gives};
ghost use Rattle.lot_profile_text.specs.Spelling.{parts_of};
ghost use Rattle.toml.specs.View.{view};

use crate::entry::Form;
use crate::fault::ProfileFault;
use crate::list::Member;
use crate::part::wrong;
use crate::place::below;
use crate::word::named;
use lot_base::Account;
use lot_command::Items;
use lot_field::Text;
use lot_profile::{AccountOf, AccountRole, Piece};
use std::alloc::{AllocError, Global};
use toml::Value;

impl Member for AccountOf {
    ghost said_at = { account_of };

    fn read(
        alloc: Global,
        place: &str,
        key: &str,
        value: &Value,
    ) -> Result<AccountOf, ProfileFault> {
        let place = below(alloc, place, key)?;
        match named(key) {
            Some(role) => account(alloc, place.as_str(), role, value),
            None => Err(ProfileFault::Unknown(place)),
        }
    }
}

/// Returns the account for something that the value at a place names, or the fault that it names none.
fn account(
    alloc: Global,
    place: &str,
    role: AccountRole,
    value: &Value,
) -> Result<AccountOf, ProfileFault>
    ensures { Gives result (account_said place.now role (view value.now)) }
{
    let Some(text) = value.as_str() else {
        return Err(wrong(alloc, place, Form::Account));
    };
    match account_in(alloc, role, text)? {
        Some(account) => Ok(account),
        None => Err(wrong(alloc, place, Form::Account)),
    }
}

/// Returns the account for something that a text names, or `None` where it names none. The only error is out of memory.
#[tactic(auto, unfolding(crate::specs::Accounts::account_in))]
fn account_in(alloc: Global, role: AccountRole, text: &str) -> Result<Option<AccountOf>, AllocError>
    ensures { IfOk result (λ account. account ≡ account_in role text.now) }
{
    let Some(pieces) = pieces_of(alloc, text)? else {
        return Ok(None);
    };
    if names_account(alloc, role, pieces.as_slice())? {
        Ok(Some(AccountOf { role, pieces }))
    } else {
        Ok(None)
    }
}

/// Returns whether pieces come to an account; that of crumbs has no braces. The only error is out of memory.
fn names_account(alloc: Global, role: AccountRole, pieces: &[Piece]) -> Result<bool, AllocError>
    ensures { IfOk result (λ names. names ≡ names_account role pieces.now) }
{
    let filled = filled(alloc, pieces)?;
    let is_account = Account::is_name(filled.as_str());
    match role {
        AccountRole::Rounding => Ok(is_account && are_texts(pieces)),
        _ => Ok(is_account),
    }
}

/// Returns whether no piece stands in braces.
fn are_texts(pieces: &[Piece]) -> bool
    ensures { result ≡ list_all is_text pieces.now }
{
    pieces.iter().all(|piece| is_text(piece))
}

fn is_text(piece: &Piece) -> bool
    ensures { result ≡ is_text piece.now }
{
    matches!(piece, Piece::Text(_))
}

/// Returns what pieces come to, with a component in the place of what stands in braces. The only error is out of memory.
fn filled(alloc: Global, pieces: &[Piece]) -> Result<String, AllocError>
    ensures { IfOk result (λ name. string_bytes name ≡ flat_map piece_filled pieces.now) }
{
    let mut name = String::new(alloc);
    for piece in pieces {
        name.push_str(piece_filled(piece))?;
    }
    Ok(name)
}

fn piece_filled(piece: &Piece) -> &str
    ensures { result.now ≡ piece_filled piece.now }
{
    match piece {
        Piece::Text(text) => text.as_str(),
        Piece::Account => "X",
        Piece::Currency => "X",
        Piece::Symbol => "X",
    }
}

// ---- Pieces.

/// Returns the pieces of a text, or `None` where a brace of it begins no piece. The only error is out of memory.
fn pieces_of(alloc: Global, text: &str) -> Result<Option<Items<Piece>>, AllocError>
    ensures { IfOk result (λ pieces. pieces ≡ parts_of first_piece text.now) }
{
    let mut pieces = Items::new(alloc);
    let mut rest = text;
    while !rest.is_empty() {
        let Some((piece, more)) = first_piece(alloc, rest)? else {
            return Ok(None);
        };
        pieces.push(piece)?;
        rest = more;
    }
    Ok(Some(pieces))
}

/// Returns the piece that a text begins with, and what stands behind it. The only error is out of memory.
fn first_piece(alloc: Global, text: &str) -> Result<Option<(Piece, &str)>, AllocError>
    ensures value { IfOk result (λ first. MatchOption first (first_piece text.now ≡ None)
        (λ read. first_piece text.now ≡ Some (read.0, read.1.now))) }
    ensures shorter { IfOk result (λ first. IfSome first
        (λ read. length read.1.now < length text.now)) }
    ensures utf8 { IfOk result (λ first. IfSome first (λ read. IsUtf8 read.1.now)) }
{
    if let Some(rest) = behind("{account}", text) {
        return Ok(Some((Piece::Account, rest)));
    }
    if let Some(rest) = behind("{currency}", text) {
        return Ok(Some((Piece::Currency, rest)));
    }
    if let Some(rest) = behind("{symbol}", text) {
        return Ok(Some((Piece::Symbol, rest)));
    }
    first_text(alloc, text)
}

/// Returns what stands behind a beginning of a text, where the text begins so.
fn behind<'a>(beginning: &str, text: &'a str) -> Option<&'a str>
    ensures value { MatchOption result (behind beginning.now text.now ≡ None)
        (λ rest. behind beginning.now text.now ≡ Some rest.now) }
    ensures shorter { IfSome result
        (λ rest. length beginning.now + length rest.now ≡ length text.now) }
{
    text.strip_prefix(beginning)
}

/// Returns the text before the first brace, where it isn't empty, and what stands behind it. The only error is out of memory.
fn first_text(alloc: Global, text: &str) -> Result<Option<(Piece, &str)>, AllocError>
    ensures value { IfOk result (λ first. MatchOption first (first_text text.now ≡ None)
        (λ read. first_text text.now ≡ Some (read.0, read.1.now))) }
    ensures shorter { IfOk result (λ first. IfSome first
        (λ read. length read.1.now < length text.now)) }
    ensures utf8 { IfOk result (λ first. IfSome first (λ read. IsUtf8 read.1.now)) }
{
    let (before, rest) = at_brace(text);
    if before.is_empty() {
        return Ok(None);
    }
    Ok(Some((Piece::Text(Text::new(alloc, before)?), rest)))
}

/// Returns what stands before the first brace of a text, and what stands from it on.
fn at_brace(text: &str) -> (&str, &str)
    ensures before { result.0.now ≡ before_first is_brace text.now }
    ensures rest { result.1.now ≡ drop (length result.0.now) text.now }
{
    match text.find('{') {
        Some(at) => text.split_at(at),
        None => text.split_at(text.len()),
    }
}
