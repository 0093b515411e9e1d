//! What the parts of a price mean.
ghost use Rattle.std.specs.Prelude.{◌≡◌, option_map, IfErr, IfOk, OnOk};
ghost use Rattle.lot_syntax.specs.Shape.{price_seen};
ghost use Rattle.lot_read.specs.Meaning.{AreInside, FirstOutside, MeansPrice, MeansPerhaps, price_items, listed_by};
ghost use Rattle.lot_read.specs.Checked.{price_of};

use crate::fault::ValueFault;
use crate::known::KnownNames;
use crate::name::CommodityPart;
use crate::value::{Total, rate};
use lot_command::{Price, UnitPrice, WholePrice};
use lot_num::Rate;
use lot_syntax::PriceForm;
use std::alloc::AllocError;

/// A price whose parts are within their rules. Nothing of it is kept yet.
#[derive(Drop)]
pub(crate) enum CheckedPrice<'a> {
    /// Behind `@`.
    Each(Rate, CommodityPart<'a>),
    /// Behind `@@`.
    Whole(Total, CommodityPart<'a>),
}

impl<'a> CheckedPrice<'a> {
    /// Returns what a price means. The error is the fault of its first part that is outside its rule.
    #[tactic(auto, using(crate::proofs::ItemLemmas::outside_first, crate::proofs::ItemLemmas::outside_later))]
    pub(crate) fn new(
        names: &KnownNames,
        form: &PriceForm<'a>,
    ) -> Result<CheckedPrice<'a>, ValueFault>
        ensures means { IfOk result (λ price. MeansPrice (price_seen form.now) (price_of price)) }
        ensures inside { OnOk result (AreInside (price_items (price_seen form.now))) }
        ensures outside { IfErr result
            (λ fault. FirstOutside (price_items (price_seen form.now)) fault) }
    {
        match form {
            PriceForm::Each(number, currency) => Ok(CheckedPrice::Each(
                rate(number)?,
                CommodityPart::new(&names.commodities, currency)?,
            )),
            PriceForm::Whole(number, currency) => Ok(CheckedPrice::Whole(
                Total::new(number)?,
                CommodityPart::new(&names.commodities, currency)?,
            )),
        }
    }

    /// Returns the same, where there is a price.
    pub(crate) fn perhaps(
        names: &KnownNames,
        form: &Option<PriceForm<'a>>,
    ) -> Result<Option<CheckedPrice<'a>>, ValueFault>
        ensures means { IfOk result (λ price.
            MeansPerhaps MeansPrice (option_map price_seen form.now) (option_map price_of price)) }
        ensures inside { OnOk result
            (AreInside (listed_by price_items (option_map price_seen form.now))) }
        ensures outside { IfErr result
            (λ fault. FirstOutside (listed_by price_items (option_map price_seen form.now)) fault) }
    {
        match form {
            Some(price) => match CheckedPrice::new(names, price) {
                Ok(price) => Ok(Some(price)),
                Err(fault) => Err(fault),
            },
            None => Ok(None),
        }
    }

    /// Returns the price, which is kept. The only error is out of memory.
    pub(crate) fn keep(&self, names: &mut KnownNames) -> Result<Price, AllocError>
        ensures { IfOk result (λ price. price ≡ price_of self.now) }
    {
        match self {
            CheckedPrice::Each(rate, currency) => Ok(Price::Each(UnitPrice {
                rate: *rate,
                currency: currency.keep(&mut names.commodities)?,
            })),
            CheckedPrice::Whole(total, currency) => {
                match WholePrice::new(total.units(), currency.keep(&mut names.commodities)?) {
                    Some(price) => Ok(Price::Whole(price)),
                    // A total isn't below zero.
                    None => unreachable!(),
                }
            }
        }
    }
}
