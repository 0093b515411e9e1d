ghost use Rattle.std.specs.Prelude.{◌≡◌, option_map};
ghost use Rattle.lot_noted.specs.Book.{asked_in, has, is_asked, is_commodity, is_of};
ghost use Rattle.lot_walk.specs.Gains.{is_up_to};

use lot_base::Day;
use lot_legs::DatedLeg;
use lot_register::NotedLeg;

/// Which legs a register is over.
#[derive(Clone, Copy)]
pub struct RegisterScope<'a> {
    /// The account that is asked for. With a colon at its end it stands for every account whose
    /// name begins with it.
    pub account: &'a str,
    /// The commodity that is asked for. Without one, all are.
    pub commodity: Option<&'a str>,
    /// The last day. Without one that end is open.
    pub last: Option<Day>,
}

impl RegisterScope<'_> {
    /// Returns whether a leg is one of these.
    pub fn has(&self, leg: &DatedLeg) -> bool
        ensures { result ≡ has (asked_in self.now) leg.now.account leg.now.commodity leg.now.day }
    {
        self.takes(leg.account.as_str(), leg.commodity.as_str(), leg.day)
    }

    /// Returns whether a leg with its narration is one of these.
    pub fn has_noted(&self, leg: &NotedLeg) -> bool
        ensures { result ≡ is_asked (asked_in self.now) leg.now }
    {
        self.takes(leg.account.as_str(), leg.commodity.as_str(), leg.day)
    }

    /// Returns whether a leg of that commodity in that account, on that day, is one of these.
    fn takes(&self, account: &str, commodity: &str, day: Day) -> bool
        ensures { result ≡ has (asked_in self.now) account.now commodity.now day }
    {
        is_of(self.account, account)
            && (is_commodity(self.commodity, commodity) && is_up_to(self.last, day))
    }
}

/// Returns whether an account is the one that a text names, or one of those that it names.
fn is_of(asked: &str, account: &str) -> bool
    ensures { result ≡ is_of asked.now account.now }
{
    if asked.as_bytes().ends_with(b":") {
        account.as_bytes().starts_with(asked.as_bytes())
    } else {
        account == asked
    }
}

/// Returns whether a commodity is asked for.
fn is_commodity(asked: Option<&str>, commodity: &str) -> bool
    ensures { result ≡ is_commodity (option_map (λ text. text.now) asked.entry) commodity.now }
{
    match asked {
        Some(asked) => commodity == asked,
        None => true,
    }
}

/// Returns whether a range that ends on a day, if it ends, hasn't ended before.
fn is_up_to(last: Option<Day>, day: Day) -> bool
    ensures { result ≡ is_up_to last day }
{
    match last {
        Some(last) => day <= last,
        None => true,
    }
}
