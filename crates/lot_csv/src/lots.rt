ghost use Rattle.std.specs.Prelude.{◌≡◌, ℤ, IfOk, Some, map, zip};
ghost use Rattle.lot_cost.specs.declared.lot_key.LotKey.{LotKey as LotKeyOf};
ghost use Rattle.lot_csv.specs.Shares.{gain_in, lots_at, lots_of};
ghost use Rattle.lot_csv.specs.declared.shares.LotPrice.TheVariants.{Share};

use crate::shares::{LotPrice, lot_gain, shares};
use lot_book::{Gain, LotKey, Sale};
use lot_command::Price;
use lot_num::Units;
use std::alloc::{AllocError, Global};

/// Returns what each lot of a sale gained, in the order in which the lots were taken. It is `None`
/// for each where the sale has no gain. The gains add up to that of the sale. The only error is out
/// of memory.
pub fn lot_gains(alloc: Global, sale: &Sale) -> Result<Vec<Option<Gain>>, AllocError>
    ensures { IfOk result (λ gains.
        gains.items ≡ map (gain_in sale.now.units) (lots_of sale.now)) }
{
    match sale.gain() {
        Some(_) => match sale.price() {
            Some(price) => gains_at(alloc, sale, price),
            None => gains_alike(alloc, sale, &None),
        },
        None => gains_alike(alloc, sale, &None),
    }
}

/// Returns what each lot of a sale gained at a price, which is in the currency of all its lots.
fn gains_at(alloc: Global, sale: &Sale, price: &Price) -> Result<Vec<Option<Gain>>, AllocError>
    ensures { IfOk result (λ gains.
        gains.items ≡ map (gain_in sale.now.units) (lots_at price.now sale.now)) }
{
    match price {
        Price::Each(price) => {
            let each = Some(LotPrice::Each(price.rate));
            gains_alike(alloc, sale, &each)
        }
        Price::Whole(price) => {
            let shares = shares(alloc, price, sale)?;
            gains_shared(alloc, sale, &shares)
        }
    }
}

/// Returns what each lot of a sale gained in which each unit of every lot goes for the same price.
fn gains_alike(
    alloc: Global,
    sale: &Sale,
    price: &Option<LotPrice>,
) -> Result<Vec<Option<Gain>>, AllocError>
    ensures { IfOk result (λ gains. gains.items
        ≡ map (λ (leg : LotKeyOf × ℤ). gain_in sale.now.units (leg, price.now)) sale.now.legs) }
{
    let units = sale.units();
    let legs = sale.legs();
    let mut gains = Vec::new(alloc);
    for leg in legs {
        gains.push(gain_in(units, leg, *price))?;
    }
    Ok(gains)
}

/// Returns what each lot of a sale gained whose lots have these shares of its price.
fn gains_shared(
    alloc: Global,
    sale: &Sale,
    shares: &[Units],
) -> Result<Vec<Option<Gain>>, AllocError>
    ensures { IfOk result (λ gains. gains.items
        ≡ map (λ (shared : (LotKeyOf × ℤ) × ℤ).
        gain_in sale.now.units (shared.0, Some (Share shared.1))) (zip sale.now.legs shares.now)) }
{
    let units = sale.units();
    let legs = sale.legs();
    let mut gains = Vec::new(alloc);
    for (leg, share) in legs.iter().zip(shares) {
        gains.push(gain_in(units, leg, Some(LotPrice::Share(*share))))?;
    }
    Ok(gains)
}

/// Returns what a lot of a sale of so many units gains, or `None` where it has no price.
fn gain_in(units: Units, leg: &(LotKey, Units), price: Option<LotPrice>) -> Option<Gain>
    ensures { result ≡ gain_in units (leg.now, price) }
{
    match price {
        Some(price) => Some(lot_gain(units, leg, &price)),
        None => None,
    }
}
