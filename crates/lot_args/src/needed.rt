//! Which options a call needs, and which it has of those that say what it is.
ghost use Rattle.std.specs.Prelude.{◌≡◌};
ghost use Rattle.clap.specs.Words.{found_of, rows_of};
ghost use Rattle.lot_args.specs.Options.{has_profile, has_row, is_shown, lacks_batch, missing_in_import, missing_of};
ghost use Rattle.lot_args.specs.Options.{names_accounts, names_book, speaks_of_book};

use crate::fault::Needed;
use crate::given::{is_given, is_set};
use clap::ArgMatches;

/// Returns what a call of the subcommand needs of which it lacks some, where `clap` doesn't ask for that.
pub(crate) fn missing(word: &str, options: &ArgMatches<'_>) -> Option<Needed>
    ensures { result ≡ missing_of word.now (rows_of (found_of options.now)) }
{
    if lacks_batch(word, options) {
        return Some(Needed::BatchOrRow);
    }
    if word == "import" {
        return missing_in_import(options);
    }
    None
}

/// Returns what an import needs of which it lacks some.
fn missing_in_import(options: &ArgMatches<'_>) -> Option<Needed>
    ensures { result ≡ missing_in_import (rows_of (found_of options.now)) }
{
    if is_shown(options) {
        return None;
    }
    if has_profile(options) {
        return if names_book(options) {
            None
        } else {
            Some(Needed::Book)
        };
    }
    if names_book(options) && names_accounts(options) {
        return None;
    }
    Some(Needed::Accounts)
}

/// Returns whether an import names its book and its batch.
fn names_book(options: &ArgMatches<'_>) -> bool
    ensures { result ≡ names_book (rows_of (found_of options.now)) }
{
    is_given(options, "book") && is_given(options, "batch")
}

/// Returns whether an import names each account that rows are posted to.
fn names_accounts(options: &ArgMatches<'_>) -> bool
    ensures { result ≡ names_accounts (rows_of (found_of options.now)) }
{
    is_given(options, "invest")
        && is_given(options, "cash")
        && is_given(options, "fees")
        && is_given(options, "gains")
}

/// Returns whether an option is given of what is kept in a book.
pub(crate) fn speaks_of_book(options: &ArgMatches<'_>) -> bool
    ensures { result ≡ speaks_of_book (rows_of (found_of options.now)) }
{
    is_given(options, "book")
        || is_given(options, "batch")
        || is_given(options, "except")
        || is_set(options, "keep-accepted")
        || is_set(options, "all-or-none")
        || is_set(options, "dry-run")
}

/// Returns whether the ledger text of rows is shown, and no book is opened.
pub(crate) fn is_shown(options: &ArgMatches<'_>) -> bool
    ensures { result ≡ is_shown (rows_of (found_of options.now)) }
{
    is_set(options, "show")
}

/// Returns whether a profile says what the rows of a file are.
pub(crate) fn has_profile(options: &ArgMatches<'_>) -> bool
    ensures { result ≡ has_profile (rows_of (found_of options.now)) }
{
    is_given(options, "profile")
}

/// Returns whether the subcommand is a `post` that names no batch, neither its own nor that of a row.
fn lacks_batch(word: &str, options: &ArgMatches<'_>) -> bool
    ensures { result ≡ lacks_batch word.now (rows_of (found_of options.now)) }
{
    word == "post" && !is_given(options, "batch") && !has_row(options)
}

/// Returns whether a command is posted for the row of a broker file.
pub(crate) fn has_row(options: &ArgMatches<'_>) -> bool
    ensures { result ≡ has_row (rows_of (found_of options.now)) }
{
    is_given(options, "row-of")
}
