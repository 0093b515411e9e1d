//! Parts that are numbers, and parts that are days.
ghost use Rattle.std.specs.Prelude.{◌≡◌, IfErr, IfOk};
ghost use Rattle.lot_read.specs.Meaning.{MeansDay, MeansRate, MeansTotal, MeansUnits, day_item, rate_item, total_item, units_item};
ghost use Rattle.lot_read.specs.Outside.{IsOutside};

use crate::fault::ValueFault;
use lot_base::Day;
use lot_num::{Rate, Units};
use std::marker::Model;

/// Returns the units that a part means. The error is `BadNumber`, exactly where it means none.
pub(crate) fn units(part: &str) -> Result<Units, ValueFault>
    ensures means { IfOk result (λ units. MeansUnits part.now units) }
    ensures outside { IfErr result (λ fault. IsOutside (units_item part.now) fault) }
{
    match Units::parse(part) {
        Ok(units) => Ok(units),
        Err(_) => Err(ValueFault::BadNumber),
    }
}

/// Returns the rate that a part means. The error is `BadNumber`, exactly where it means none.
pub(crate) fn rate(part: &str) -> Result<Rate, ValueFault>
    ensures means { IfOk result (λ rate. MeansRate part.now rate) }
    ensures outside { IfErr result (λ fault. IsOutside (rate_item part.now) fault) }
{
    match Rate::parse(part) {
        Ok(rate) => Ok(rate),
        Err(_) => Err(ValueFault::BadNumber),
    }
}

/// Returns the day that a part means. The error is `BadDay`, exactly where it means none.
pub(crate) fn day(part: &str) -> Result<Day, ValueFault>
    ensures means { IfOk result (λ day. MeansDay part.now day) }
    ensures outside { IfErr result (λ fault. IsOutside (day_item part.now) fault) }
{
    match Day::parse(part) {
        Ok(day) => Ok(day),
        Err(_) => Err(ValueFault::BadDay),
    }
}

/// A total, which isn't below zero.
#[derive(Clone, Copy)]
pub(crate) struct Total {
    units: Units,
}

impl Model for Total {
    ghost use Rattle.std.specs.Prelude.{ℤ, pos, ◌≤ℤ◌};

    ghost Value = { ℤ };

    ghost view = { λ t. t.units };

    ghost inverse = { λ z. record { units = z } };

    ghost invariant = { λ t. pos 0 ≤ℤ t.units };
}

impl Total {
    ghost use Rattle.std.specs.Prelude.{pos, ◌≤ℤ◌};

    /// Returns the total that a part means. The error is `BadNumber`, exactly where it means none.
    pub(crate) fn new(part: &str) -> Result<Total, ValueFault>
        ensures means { IfOk result (λ total. MeansTotal part.now total) }
        ensures outside { IfErr result (λ fault. IsOutside (total_item part.now) fault) }
    {
        match Units::parse_total(part) {
            Ok(units) => Ok(Total { units }),
            Err(_) => Err(ValueFault::BadNumber),
        }
    }

    /// Returns the total in units.
    pub(crate) fn units(self) -> Units
        ensures value { result ≡ self }
        ensures not_negative { pos 0 ≤ℤ result }
    {
        self.units
    }
}
