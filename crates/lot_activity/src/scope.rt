ghost use Rattle.std.specs.Prelude.{◌≡◌, option_map};
ghost use Rattle.lot_activity.specs.Scope.{asked_in, has, is_asked, is_of};
ghost use Rattle.lot_walk.specs.Gains.{is_from, is_up_to, is_within};

use lot_base::{Account, Day};
use lot_legs::DatedLeg;

/// Which legs a report is over: those of some accounts, on the days of a range.
#[derive(Clone, Copy)]
pub struct Scope<'a> {
    /// The account that is asked for. With a colon at its end it stands for every account whose
    /// name begins with it. Without one, all accounts are asked for.
    pub account: Option<&'a str>,
    /// The first day of the range. Without one that end is open.
    pub first: Option<Day>,
    /// The last day of the range. Without one that end is open.
    pub last: Option<Day>,
}

impl Scope<'_> {
    /// Returns whether a leg is one of these.
    pub fn has(&self, leg: &DatedLeg) -> bool
        ensures { result ≡ has (asked_in self.now) leg.now }
    {
        is_within(self.first, self.last, leg.day) && is_asked(self.account, &leg.account)
    }
}

/// Returns whether a day is in a range.
fn is_within(first: Option<Day>, last: Option<Day>, day: Day) -> bool
    ensures { result ≡ is_within (first, last) day }
{
    is_from(first, day) && is_up_to(last, day)
}

/// Returns whether a range that begins on a day, if it begins, hasn't begun later.
fn is_from(first: Option<Day>, day: Day) -> bool
    ensures { result ≡ is_from first day }
{
    match first {
        Some(first) => day >= first,
        None => true,
    }
}

/// Returns whether a range that ends on a day, if it ends, hasn't ended before.
fn is_up_to(last: Option<Day>, day: Day) -> bool
    ensures { result ≡ is_up_to last day }
{
    match last {
        Some(last) => day <= last,
        None => true,
    }
}

/// Returns whether an account is asked for.
fn is_asked(asked: Option<&str>, account: &Account) -> bool
    ensures { result ≡ is_asked (option_map (λ text. text.now) asked.entry) account.now }
{
    match asked {
        Some(asked) => is_of(asked, account.as_str()),
        None => true,
    }
}

/// Returns whether an account is the one that a text names, or one of those that it names.
fn is_of(asked: &str, account: &str) -> bool
    ensures { result ≡ is_of asked.now account.now }
{
    if asked.as_bytes().ends_with(b":") {
        account.as_bytes().starts_with(asked.as_bytes())
    } else {
        account == asked
    }
}
