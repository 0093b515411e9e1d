//! The numbers that a row says for a role.
ghost use Rattle.std.specs.Prelude.{◌≡◌, ◌≤◌, ◌+◌, ◌*◌, ◌^◌, ◌+ℤ◌, IfSome, Some, count_by, pos, unsigned_abs, unwrap_or};
ghost use Rattle.lot_num.specs.Amount.{units_limit};
ghost use Rattle.lot_field.specs.Numbers.{SaysNumber};
ghost use Rattle.lot_field.specs.declared.numbers.Number.{Number};
ghost use Rattle.lot_roles.specs.Numbers.{amount_of, as_rate, exact_units_of, in_units, is_rounded, number_of, part_units, rate_of, rounded_in, rounded_parts, says_rounded, total_of, turned, units_of, units_with};
ghost use Rattle.lot_roles.specs.Parts.{parts_of};

use crate::fault::RowFault;
use crate::parts::part;
use crate::rules::{Rules, is_turned, sources};
use lot_field::{Exactness, Number, NumberForm};
use lot_num::{Rate, Units};
use lot_profile::{FileForm, Role, Source};
use lot_sheet::Row;

/// What becomes of decimals behind the eighth.
#[derive(Clone, Copy)]
pub(crate) enum Decimals {
    /// They are rounded, half to even.
    Rounded,
    /// They are a fault, unless they are zeros.
    Refused,
}

/// Returns the amount of a role in a row: the sum of what its sources say, with the other sign where the role's is printed
/// the other way, or `None` where they say nothing.
///
/// Each part is rounded to eight decimals, half to even, as it is read. The error is `NotNumber` of the first part that is no
/// number, or out of the range of units; else it is `TooLarge`, where the sum is out of that range.
pub fn amount(rules: &Rules, row: &Row, role: Role) -> Result<Option<Units>, RowFault>
    ensures { result ≡ amount_of rules.now row.now role }
{
    units(Decimals::Rounded, rules, row, role)
}

/// Returns the same, but the first part with a ninth decimal that isn't zero is a fault, `TooManyDecimals`.
pub fn exact_units(rules: &Rules, row: &Row, role: Role) -> Result<Option<Units>, RowFault>
    ensures { result ≡ exact_units_of rules.now row.now role }
{
    units(Decimals::Refused, rules, row, role)
}

/// Returns an amount as a rate. The error is that of the amount; else `BelowZero`, where it is below zero; else `TooLarge`,
/// where it is out of the range of rates.
pub fn rate(rules: &Rules, row: &Row, role: Role) -> Result<Option<Rate>, RowFault>
    ensures { result ≡ rate_of rules.now row.now role }
{
    match amount(rules, row, role)? {
        Some(amount) => Ok(Some(as_rate(role, amount)?)),
        None => Ok(None),
    }
}

/// Returns how many parts of some roles are rounded as they are read, at most `usize::MAX`.
pub fn rounded_in(rules: &Rules, row: &Row, roles: &[Role]) -> usize
    ensures { result ≡ rounded_in rules.now row.now roles.now }
{
    let mut count = 0usize;
    for role in roles {
        count = count.saturating_add(rounded_parts(rules, row, *role));
    }
    count
}

/// Returns how many parts of a role are rounded as they are read.
fn rounded_parts(rules: &Rules, row: &Row, role: Role) -> usize
    ensures { result ≡ rounded_parts rules.now row.now role }
{
    rounded_sources(&rules.profile.file, row, sources(rules, role))
}

/// Returns how many sources say a part that is rounded as it is read.
fn rounded_sources(form: &FileForm, row: &Row, sources: &[Source]) -> usize
    ensures { result ≡ count_by (says_rounded form.now row.now) sources.now }
{
    sources
        .iter()
        .filter(|source| says_rounded(form, row, source))
        .count()
}

/// Returns whether a source says a part that is rounded as it is read.
fn says_rounded(form: &FileForm, row: &Row, source: &Source) -> bool
    ensures { result ≡ says_rounded form.now row.now source.now }
{
    match part(form, row, source) {
        Some(part) => is_rounded(&form.numbers, part),
        None => false,
    }
}

/// Returns whether a text is a number that is rounded as it is read.
fn is_rounded(form: &NumberForm, text: &str) -> bool
    ensures { result ≡ is_rounded form.now text.now }
{
    match number(form, text) {
        Some(number) => number.exactness == Exactness::Rounded,
        None => false,
    }
}

/// Returns the number of a role in a row.
#[tactic(auto, unfolding(crate::specs::Numbers::units_of))]
fn units(
    decimals: Decimals,
    rules: &Rules,
    row: &Row,
    role: Role,
) -> Result<Option<Units>, RowFault>
    ensures { result ≡ units_of decimals rules.now row.now role }
{
    match sum(decimals, rules, row, role)? {
        Some(sum) => Ok(Some(turned(rules, role, in_units(role, sum)?))),
        None => Ok(None),
    }
}

/// Returns the sum of what the parts of a role say, at scale 8, which may be out of the range of units.
#[tactic(auto, unfolding(crate::specs::Parts::parts_of))]
fn sum(decimals: Decimals, rules: &Rules, row: &Row, role: Role) -> Result<Option<i128>, RowFault>
    ensures { result ≡ total_of rules.now.profile.now.file.numbers decimals role
        (parts_of rules.now row.now role) }
{
    let form = &rules.profile.file;
    let mut sum = None;
    for source in sources(rules, role) {
        if let Some(part) = part(form, row, source) {
            let units = part_units(&form.numbers, decimals, role, part)?;
            sum = plus(sum, units);
        }
    }
    Ok(sum)
}

/// Returns units added to a sum, if there is one.
fn plus(sum: Option<i128>, units: Units) -> Option<i128>
    requires { unsigned_abs (unwrap_or sum (pos 0)) ≤ 2 ^ 64 * units_limit }
    ensures value { result ≡ Some (unwrap_or sum (pos 0) +ℤ units) }
    ensures bound { unsigned_abs (unwrap_or result (pos 0))
        ≤ unsigned_abs (unwrap_or sum (pos 0)) + units_limit }
{
    Some(sum.unwrap_or(0) + i128::from(units.mantissa()))
}

/// Returns the units that a part says.
fn part_units(
    form: &NumberForm,
    decimals: Decimals,
    role: Role,
    part: &str,
) -> Result<Units, RowFault>
    ensures { result ≡ part_units form.now decimals role part.now }
{
    let Some(number) = number(form, part) else {
        return Err(RowFault::NotNumber(role));
    };
    match (decimals, number.exactness) {
        (Decimals::Refused, Exactness::Rounded) => Err(RowFault::TooManyDecimals(role)),
        _ => Ok(number.units),
    }
}

/// Returns the number that a text says, if it says one.
fn number(form: &NumberForm, text: &str) -> Option<Number>
    ensures says { IfSome result (SaysNumber form.now text.now) }
    ensures every { (said : Number) → SaysNumber form.now text.now said → result ≡ Some said }
    ensures value { result ≡ number_of form.now text.now }
{
    form.read(text)
}

/// Returns a sum, if it is in the range of units.
fn in_units(role: Role, sum: i128) -> Result<Units, RowFault>
    ensures { result ≡ in_units role sum }
{
    let Ok(mantissa) = i64::try_from(sum) else {
        return Err(RowFault::TooLarge(role));
    };
    match Units::from_mantissa(mantissa) {
        Some(units) => Ok(units),
        None => Err(RowFault::TooLarge(role)),
    }
}

/// Returns units with the other sign, where the role's is printed the other way.
fn turned(rules: &Rules, role: Role, units: Units) -> Units
    ensures { result ≡ turned rules.now role units }
{
    if is_turned(rules, role) {
        units.negated()
    } else {
        units
    }
}

/// Returns units as a rate.
fn as_rate(role: Role, units: Units) -> Result<Rate, RowFault>
    ensures { result ≡ as_rate role units }
{
    let Ok(mantissa) = u64::try_from(units.mantissa()) else {
        return Err(RowFault::BelowZero(role));
    };
    match Rate::from_mantissa(mantissa) {
        Some(rate) => Ok(rate),
        None => Err(RowFault::TooLarge(role)),
    }
}
