//! A report of an account that the book doesn't have.

ghost use Rattle.std.specs.Prelude.{◌≡◌, option_map};
ghost use Rattle.std.specs.List.{list_any};
ghost use Rattle.lot_call.specs.Looks.{IsLookedAt};
ghost use Rattle.lot_call.specs.Misnamed.{account_asked, account_of, is_of, misnamed};
ghost use Rattle.sqlite.specs.Held.{state};

use crate::call::Call;
use crate::facts::list_accounts;
use lot_args::{Action, Report};
use lot_base::Account;
use lot_output::Heard;
use sqlite::{Alter, Connection};
use std::alloc::Global;
use std::fmt;

/// Warns on standard error where a report that was written is of an account that the book doesn't have. The book is only looked
/// at. Where it can't be read, or memory ends, nothing is said.
pub(crate) fn warn_of_account<S: Alter>(call: &Call<'_>, heard: &Heard, conn: &mut Connection<S>)
    ensures { IsLookedAt (state S.Store conn.old) (state S.Store conn.new) }
{
    if heard.course.faults > 0 || account_asked(call.action).is_none() {
        return;
    }
    let Some(accounts) = accounts_of(call.rt.alloc(), conn) else {
        return;
    };
    if let Some(warning) = misnamed(call.action, &accounts) {
        let _ = eprintln!(call.rt; "{warning}");
    }
}

/// Returns the accounts of a book, where they can be read.
fn accounts_of<S: Alter>(alloc: Global, conn: &mut Connection<S>) -> Option<Vec<Account>>
    ensures { IsLookedAt (state S.Store conn.old) (state S.Store conn.new) }
{
    let accounts = list_accounts(alloc, conn);
    accounts.ok()
}

/// The warning of a report of an account that the book doesn't have, with the name by which that is asked for.
#[derive(Clone, Copy)]
struct NoAccount<'a> {
    name: &'a str,
}

impl fmt::Display for NoAccount<'_> {
    ghost use Rattle.std.specs.Prelude.{Some};
    ghost use Rattle.lot_call.specs.Misnamed.{warning_text};

    ghost output = { λ warning. Some (warning_text warning.name.now) };

    fn fmt<W: fmt::Write>(&self, f: &mut fmt::Formatter<W>) -> Result<(), fmt::Error> {
        f.write_str("lotbook: warning: the book has no account ")?;
        f.write_str(self.name)
    }
}

/// Returns the warning of an action in a book with these accounts, where none of them is the one, or one of those, that it asks for.
fn misnamed<'a>(action: &'a Action, accounts: &[Account]) -> Option<NoAccount<'a>>
    ensures { option_map (λ warning. warning.name.now) result ≡ misnamed accounts.now action.now }
{
    let name = account_asked(action)?;
    if has_account(accounts, name) {
        return None;
    }
    Some(NoAccount { name })
}

/// Returns the account that an action asks for, if it asks for one.
fn account_asked(action: &Action) -> Option<&str>
    ensures { option_map (λ name. name.now) result ≡ account_asked action.now }
{
    match action {
        Action::Report { report, .. } => account_of(report),
        Action::Reconcile(asked) => Some(asked.account.as_str()),
        _ => None,
    }
}

/// Returns the account that a report is of, if it is of one.
fn account_of(report: &Report) -> Option<&str>
    ensures { option_map (λ name. name.now) result ≡ account_of report.now }
{
    match report {
        Report::Register { account, .. } => Some(account.as_str()),
        Report::Activity { account, .. } => account.as_deref(),
        _ => None,
    }
}

/// Returns whether one of the accounts is meant by a name.
fn has_account(accounts: &[Account], name: &str) -> bool
    ensures { result ≡ list_any (is_of name.now) accounts.now }
{
    accounts.iter().any(|account| is_of(name, account.as_str()))
}

/// Returns whether an account is meant by a name. With a colon at its end that stands for all whose names begin so.
fn is_of(name: &str, account: &str) -> bool
    ensures { result ≡ is_of name.now account.now }
{
    if name.as_bytes().ends_with(b":") {
        account.as_bytes().starts_with(name.as_bytes())
    } else {
        account == name
    }
}
