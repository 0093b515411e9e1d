//! The split that a row comes to.
ghost use Rattle.std.specs.Prelude.{◌≡◌};
ghost use Rattle.std.specs.Char.{is_ascii_digit};
ghost use Rattle.std.specs.List.{list_all};
ghost use Rattle.lot_roles.specs.Reading.{Gives};
ghost use Rattle.lot_deal_read.specs.Ratio.{by_units, change_of, in_ratio, is_small, ratio_in, whole, with_new};

use crate::needed::units_in;
use lot_field::cut;
use lot_num::Units;
use lot_profile::Role;
use lot_roles::{RowFault, Rules, text};
use lot_rounding::{Change, Ratio, lowest_ratio};
use lot_sheet::Row;
use std::alloc::Global;

/// Returns how a row gives a split: by a ratio, where it has one, else by the units that were added.
#[tactic(auto, unfolding(crate::specs::Ratio::change_of))]
pub(crate) fn change(alloc: Global, rules: &Rules, row: &Row) -> Result<Change, RowFault>
    ensures { Gives result (change_of rules.now row.now) }
{
    match text(alloc, rules, row, Role::Ratio)? {
        Some(text) => in_ratio(text.as_str()),
        None => by_units(rules, row),
    }
}

/// Returns the split by the units of a row, which aren't zero.
fn by_units(rules: &Rules, row: &Row) -> Result<Change, RowFault>
    ensures { result ≡ by_units rules.now row.now }
{
    let units = units_in(rules, row)?;
    if units == Units::ZERO {
        return Err(RowFault::NothingAdded);
    }
    Ok(Change::ByUnits(units))
}

/// Returns the split by the ratio that a text writes.
fn in_ratio(text: &str) -> Result<Change, RowFault>
    ensures { result ≡ in_ratio text.now }
{
    let Some(ratio) = ratio_in(text) else {
        return Err(RowFault::NotRatio);
    };
    if !is_small(ratio) {
        return Err(RowFault::RatioTooLarge);
    }
    Ok(Change::InRatio(ratio))
}

/// Returns the ratio that a text writes, or `None` where it writes none.
fn ratio_in(text: &str) -> Option<Ratio>
    ensures { result ≡ ratio_in text.now }
{
    match text.split_once(':') {
        Some((new, old)) => ratio_of(whole(cut(new)), whole(cut(old))),
        None => None,
    }
}

/// Returns the ratio of two numbers, if both are there.
fn ratio_of(new: Option<u64>, old: Option<u64>) -> Option<Ratio>
    ensures { result ≡ with_new new old }
{
    match (new, old) {
        (Some(new), Some(old)) => Some(Ratio { new, old }),
        _ => None,
    }
}

/// Returns the number above zero that digits write, or `None` where they write none below 2 ^ 64.
fn whole(text: &str) -> Option<u64>
    ensures { result ≡ whole text.now }
{
    if !are_digits(text) {
        return None;
    }
    match text.parse() {
        Ok(number) if number > 0 => Some(number),
        _ => None,
    }
}

/// Returns whether a text is digits alone.
fn are_digits(text: &str) -> bool
    ensures { result ≡ list_all is_ascii_digit text.now }
{
    text.as_bytes().iter().all(|byte| byte.is_ascii_digit())
}

/// Returns whether a ratio in lowest terms has no number above the limit.
fn is_small(ratio: Ratio) -> bool
    ensures { result ≡ is_small ratio }
{
    lowest_ratio(Change::InRatio(ratio), Units::ZERO).is_some()
}
