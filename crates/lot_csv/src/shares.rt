ghost use Rattle.std.specs.Prelude.{◌≡◌, ◌≢◌, ◌≤◌, ◌<◌, ◌*◌, [], pos, unsigned_abs, IfOk};
ghost use Rattle.lot_num.specs.Amount.{rate_limit, units_limit};
ghost use Rattle.lot_csv.specs.Shares.{lot_cost, lot_gain, lot_proceeds, part_of, shares_of};

use lot_book::{Gain, LotKey, Sale};
use lot_command::WholePrice;
use lot_num::{Rate, Units, Wide, weight};
use std::alloc::{AllocError, Global};

/// The price of a lot of a sale.
#[derive(Clone, Copy, Debug, PartialEq, Eq)]
pub(crate) enum LotPrice {
    /// The price of each unit.
    Each(Rate),
    /// Its share of the price of all units.
    Share(Units),
}

/// Returns the share of each lot of a sale in the price of all units, in the order in which the
/// lots were taken. A share is in proportion to the lot's units, and is cut at eight decimals. The
/// last lot has what is left. The only error is out of memory.
pub(crate) fn shares(
    alloc: Global,
    price: &WholePrice,
    sale: &Sale,
) -> Result<Vec<Units>, AllocError>
    ensures value { IfOk result (λ shares.
        shares.items ≡ shares_of price.now.0 sale.now.units sale.now.legs) }
    // A sale has a lot.
    ensures some { sale.now.legs ≢ [] }
{
    let total = magnitude(price.total());
    let units = magnitude(sale.units());
    let legs = sale.legs();
    let mut left = total;
    let mut shares = Vec::new(alloc);
    for leg in &legs[..legs.len() - 1] {
        let part = part_of(total, units, magnitude(leg.1));
        left -= part;
        shares.push(not_negative(part))?;
    }
    shares.push(not_negative(left))?;
    Ok(shares)
}

/// Returns the mantissa of units, sign aside.
fn magnitude(units: Units) -> u64
    ensures value { result ≡ unsigned_abs units }
    ensures bound { result < units_limit }
{
    units.mantissa().unsigned_abs()
}

/// Returns the part of a total that goes to some of all units, cut at eight decimals. All three are
/// mantissas.
fn part_of(total: u64, all: u64, units: u64) -> u64
    requires some { all ≢ 0 }
    requires of_all { units ≤ all }
    ensures value { result ≡ part_of total all units }
    ensures bound { result ≤ total }
{
    (u128::from(total) * u128::from(units) / u128::from(all)) as u64
}

/// Returns the units with that mantissa.
fn not_negative(mantissa: u64) -> Units
    requires { mantissa < units_limit }
    ensures { result ≡ pos mantissa }
{
    match Units::from_mantissa(mantissa as i64) {
        Some(units) => units,
        None => unreachable!(),
    }
}

/// Returns what a lot of a sale of so many units gains.
pub(crate) fn lot_gain(units: Units, leg: &(LotKey, Units), price: &LotPrice) -> Gain
    ensures { result ≡ lot_gain units leg.now price.now }
{
    let proceeds = lot_proceeds(units, leg.1, price);
    let cost = lot_cost(leg);
    match proceeds.checked_add(cost.negated()) {
        Some(gain) => Gain {
            proceeds,
            cost,
            gain,
        },
        None => unreachable!(),
    }
}

/// Returns what a lot goes for. The sale took so many of its units, and has so many units in all.
fn lot_proceeds(units: Units, taken: Units, price: &LotPrice) -> Wide
    ensures value { result ≡ lot_proceeds units taken price.now }
    ensures bound { unsigned_abs result ≤ units_limit * rate_limit }
{
    match price {
        LotPrice::Each(rate) => weight(taken.negated(), *rate),
        LotPrice::Share(share) if units < Units::ZERO => share.wide(),
        LotPrice::Share(share) => share.wide().negated(),
    }
}

/// Returns what the units that were taken of a lot cost.
pub fn lot_cost(leg: &(LotKey, Units)) -> Wide
    ensures value { result ≡ lot_cost leg.now }
    ensures bound { unsigned_abs result ≤ units_limit * rate_limit }
{
    weight(leg.1.negated(), leg.0.number)
}
