ghost use Rattle.std.specs.Prelude.{◌≡◌, pos};
ghost use Rattle.lot_base.specs.Day.{day_of, month_of, year_of};

use jiff_core::civil::Date;
use lot_base::Day;

/// Returns the date of a day.
pub(crate) fn date_of(day: Day) -> Date
    ensures year { result.year ≡ pos (year_of day) }
    ensures month { result.month ≡ month_of day }
    ensures day { result.day ≡ day_of day }
{
    match Date::from_unix_epoch_day(i64::from(day.number())) {
        Ok(date) => date,
        Err(_) => unreachable!(),
    }
}
