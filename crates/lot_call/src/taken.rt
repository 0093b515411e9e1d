//! What an account took of the crumbs of a call.

ghost use Rattle.std.specs.Prelude.{◌≡◌, ◌++◌, [], ◌∷◌, List, ℕ, ℤ, OnOk, pos};
ghost use Rattle.std.specs.Ordering.{int_eq};
ghost use Rattle.lot_call.specs.Sums.{AreSummed, nonzero};

use crate::call::{Call, rounding_of};
use crate::crumbs::Crumbs;
use crate::sums::{SumFault, Sums, push_amount};
use lot_args::Action;
use lot_base::{Account, Commodity};
use lot_command::Items;
use lot_num::Wide;
use std::alloc::{AllocError, Global};

/// Of how many commands it is said what an account took.
const TEN: usize = 10;

/// What an account took of the crumbs of a call.
#[derive(Drop)]
pub(crate) struct Taken {
    /// From how many commands it took some.
    count: u64,
    /// The numbers of the first of these, each with its crumbs.
    first: Vec<(usize, Items<(Commodity, Wide)>)>,
    /// The sums of all crumbs that aren't zero. `None` where one is out of range.
    sums: Option<Sums>,
}

impl Taken {
    /// Returns nothing yet.
    pub(crate) fn new(alloc: Global) -> Taken
        ensures { AreSummed [] result.sums }
    {
        Taken {
            count: 0,
            first: Vec::new(alloc),
            sums: Some(Sums::new(alloc)),
        }
    }

    /// Adds the crumbs of the command of that number. The only error is out of memory.
    pub(crate) fn add(
        &mut self,
        number: usize,
        crumbs: Items<(Commodity, Wide)>,
    ) -> Result<(), AllocError>
        ensures { (amounts : List (List ℕ × ℤ)) → AreSummed amounts self.old.sums
            → OnOk result (AreSummed (amounts ++ nonzero crumbs) self.new.sums) }
    {
        add_all(&mut self.sums, crumbs.as_slice())?;
        if are_zero(crumbs.as_slice()) {
            return Ok(());
        }
        self.count = self.count.saturating_add(1);
        if self.first.len() < TEN {
            self.first.push((number, crumbs))?;
        }
        Ok(())
    }

    /// Says what an account took, from the first commands a line each and from how many more, and then the
    /// sums of all. The only error is out of memory.
    fn say(&self, call: &Call<'_>, account: &Account) -> Result<(), AllocError> {
        let alloc = call.rt.alloc();
        let what = match call.action {
            Action::Import(_) | Action::ImportBy(_) => "row",
            _ => "command",
        };
        for (number, crumbs) in &self.first {
            let amounts = amounts_of(alloc, crumbs.as_slice())?;
            let _ = eprintln!(call.rt; "lotbook: {what} {number}: {account} takes {amounts}");
        }
        let more = self.count.saturating_sub(self.first.len() as u64);
        if more > 0 {
            let _ = eprintln!(call.rt; "lotbook: ... and {more} more");
        }
        let Some(sums) = &self.sums else {
            return Ok(());
        };
        let sums = sums.text(alloc)?;
        if sums.is_empty() {
            return Ok(());
        }
        let (count, end) = (self.count, if self.count == 1 { "" } else { "s" });
        let _ = eprintln!(call.rt; "lotbook: {account} takes {sums}, of {count} {what}{end}");
        Ok(())
    }
}

/// Says on standard error what an account took of the crumbs of a call, where one did.
pub fn say_taken(call: &Call<'_>, crumbs: &Crumbs) {
    if let Some(rounding) = rounding_of(call.action)
        && let Some(taken) = &crumbs.taken
    {
        let _ = taken.say(call, &rounding.account);
    }
}

/// Adds crumbs to sums. The only error is out of memory.
fn add_all(sums: &mut Option<Sums>, crumbs: &[(Commodity, Wide)]) -> Result<(), AllocError>
    ensures { (amounts : List (List ℕ × ℤ)) → AreSummed amounts sums.old
        → OnOk result (AreSummed (amounts ++ nonzero crumbs.now) sums.new) }
{
    for (currency, crumb) in crumbs {
        add_one(sums, currency, *crumb)?;
    }
    Ok(())
}

/// Adds a crumb to sums, unless it is zero. Where a sum leaves its range, none is known from then on. The
/// only error is out of memory.
fn add_one(sums: &mut Option<Sums>, currency: &Commodity, crumb: Wide) -> Result<(), AllocError>
    ensures { (amounts : List (List ℕ × ℤ)) → AreSummed amounts sums.old
        → OnOk result (AreSummed (amounts ++ nonzero ((currency.now, crumb) ∷ [])) sums.new) }
{
    if is_zero(crumb) {
        return Ok(());
    }
    let Some(known) = sums else {
        return Ok(());
    };
    match known.add(currency, crumb) {
        Ok(()) => Ok(()),
        Err(SumFault::Range) => {
            *sums = None;
            Ok(())
        }
        Err(SumFault::Memory) => Err(AllocError),
    }
}

/// Returns whether a crumb is zero.
fn is_zero(crumb: Wide) -> bool
    ensures { result ≡ int_eq crumb (pos 0) }
{
    crumb.mantissa() == 0
}

/// Returns whether all crumbs are zero.
fn are_zero(crumbs: &[(Commodity, Wide)]) -> bool {
    crumbs.iter().all(|crumb| is_zero(crumb.1))
}

/// Returns the crumbs that aren't zero as a text. The only error is out of memory.
fn amounts_of(alloc: Global, crumbs: &[(Commodity, Wide)]) -> Result<String, AllocError> {
    let mut text = String::new(alloc);
    for (currency, crumb) in crumbs {
        if !is_zero(*crumb) {
            push_amount(alloc, &mut text, currency, *crumb)?;
        }
    }
    Ok(text)
}
