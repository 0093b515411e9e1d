//! The days and the time that a row says.
ghost use Rattle.std.specs.Prelude.{◌≡◌};
ghost use Rattle.lot_roles.specs.Days.{as_day, as_moment, day_of, moment_in, time_beside};
ghost use Rattle.lot_roles.specs.Reading.{Gives};

use crate::fault::RowFault;
use crate::parts::text;
use crate::rules::Rules;
use lot_base::Day;
use lot_field::{Moment, Text, Time};
use lot_profile::Role;
use lot_sheet::Row;
use std::alloc::Global;

/// Returns the day that a row says for a role, or `None` where it says nothing. A time behind the day is read over.
///
/// The error is `NotDay` exactly where the text of the role is no day. Else it is `Memory`.
pub fn day(alloc: Global, rules: &Rules, row: &Row, role: Role) -> Result<Option<Day>, RowFault>
    ensures { Gives result (day_of rules.now row.now role) }
{
    match text(alloc, rules, row, role)? {
        Some(text) => Ok(Some(as_day(rules, role, text.as_str())?)),
        None => Ok(None),
    }
}

/// Returns the day of a row, and its time where it has one: the time beside the day, or else the one behind it.
///
/// The error is `Missing` where it has no day, then `NotDay` where that is none, then `NotTime` where the time beside it is
/// none. Else it is `Memory`.
pub fn moment(alloc: Global, rules: &Rules, row: &Row) -> Result<Moment, RowFault>
    ensures { Gives result (moment_in rules.now row.now) }
{
    let Some(day) = text(alloc, rules, row, Role::Day)? else {
        return Err(RowFault::Missing(Role::Day));
    };
    let moment = as_moment(rules, Role::Day, day.as_str())?;
    let beside = text(alloc, rules, row, Role::Time)?;
    Ok(Moment {
        day: moment.day,
        time: time_beside(moment.time, &beside)?,
    })
}

/// Returns the day that a text of a role says.
fn as_day(rules: &Rules, role: Role, text: &str) -> Result<Day, RowFault>
    ensures { result ≡ as_day rules.now role text.now }
{
    match rules.profile.file.day.read(text) {
        Some(moment) => Ok(moment.day),
        None => Err(RowFault::NotDay(role)),
    }
}

/// Returns the day that a text of a role says, and the time behind it.
fn as_moment(rules: &Rules, role: Role, text: &str) -> Result<Moment, RowFault>
    ensures { result ≡ as_moment rules.now role text.now }
{
    match rules.profile.file.day.read(text) {
        Some(moment) => Ok(moment),
        None => Err(RowFault::NotDay(role)),
    }
}

/// Returns the time beside the day, or else the one behind it.
fn time_beside(behind: Option<Time>, beside: &Option<Text>) -> Result<Option<Time>, RowFault>
    ensures { result ≡ time_beside behind beside.now }
{
    let Some(text) = beside else {
        return Ok(behind);
    };
    match Time::read(text.as_str()) {
        Some(time) => Ok(Some(time)),
        None => Err(RowFault::NotTime),
    }
}
