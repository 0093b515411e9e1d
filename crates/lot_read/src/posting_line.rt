ghost use Rattle.std.specs.Prelude.{◌≡◌, option_map, IfErr, IfOk, OnOk, IsErrOf};
ghost use Rattle.lot_syntax.specs.Form.{FitsCost, FitsPerhaps, WrittenAmount};
ghost use Rattle.lot_syntax.specs.Shape.{amount_seen, cost_seen, posting_seen};
ghost use Rattle.lot_read.specs.declared.fault.MeaningFault.TheVariants.{Memory, Outside};
ghost use Rattle.lot_read.specs.declared.fault.ValueFault.{ValueFault};
ghost use Rattle.lot_read.specs.Meaning.{AreInside, FirstOutside, MeansAmount, MeansPerhaps, MeansPosting, amount_items, listed_by, posting_items};
ghost use Rattle.lot_read.specs.Checked.{amount_of, posting_of};

use crate::cost::CheckedCost;
use crate::fault::{MeaningFault, ValueFault};
use crate::known::KnownNames;
use crate::name::{AccountPart, CommodityPart};
use crate::price::CheckedPrice;
use crate::value::units;
use lot_command::{Amount, Posting};
use lot_num::Units;
use lot_syntax::{AmountForm, PostingForm};
use std::alloc::AllocError;

/// Returns the posting that the parts of a line mean.
///
/// The error is the fault of the first part, from left to right, that is outside its rule. Where all parts are within their
/// rules, it is `Memory`: no memory for the names.
pub fn posting(names: &mut KnownNames, form: &PostingForm<'_, '_>) -> Result<Posting, MeaningFault>
    requires fits { FitsPerhaps
        (λ (a : WrittenAmount). FitsPerhaps FitsCost a.cost) (posting_seen form.now).amount }
    ensures means { IfOk result (λ posting. MeansPosting (posting_seen form.now) posting) }
    ensures outside { (fault : ValueFault) → IsErrOf result (Outside fault)
        → FirstOutside (posting_items (posting_seen form.now)) fault }
    ensures memory { IsErrOf result Memory → AreInside (posting_items (posting_seen form.now)) }
{
    let checked = CheckedPosting::new(names, form)?;
    Ok(checked.keep(names)?)
}

/// A posting whose parts are within their rules. Nothing of it is kept yet.
#[derive(Drop)]
struct CheckedPosting<'a> {
    account: AccountPart<'a>,
    amount: Option<CheckedAmount<'a>>,
}

impl<'a> CheckedPosting<'a> {
    /// Returns what a posting means. The error is the fault of its first part that is outside its rule.
    #[tactic(auto, using(crate::proofs::ItemLemmas::outside_first, crate::proofs::ItemLemmas::outside_later))]
    fn new(names: &KnownNames, form: &PostingForm<'_, 'a>) -> Result<CheckedPosting<'a>, ValueFault>
        requires { FitsPerhaps
            (λ (a : WrittenAmount). FitsPerhaps FitsCost a.cost) (posting_seen form.now).amount }
        ensures means { IfOk result
            (λ posting. MeansPosting (posting_seen form.now) (posting_of posting)) }
        ensures inside { OnOk result (AreInside (posting_items (posting_seen form.now))) }
        ensures outside { IfErr result
            (λ fault. FirstOutside (posting_items (posting_seen form.now)) fault) }
    {
        Ok(CheckedPosting {
            account: AccountPart::new(&names.accounts, form.account)?,
            amount: CheckedAmount::perhaps(names, &form.amount)?,
        })
    }

    /// Returns the posting, which is kept. The only error is out of memory.
    fn keep(&self, names: &mut KnownNames) -> Result<Posting, AllocError>
        ensures { IfOk result (λ posting. posting ≡ posting_of self.now) }
    {
        let amount = match &self.amount {
            Some(amount) => Some(amount.keep(names)?),
            None => None,
        };
        Ok(Posting {
            account: self.account.keep(&mut names.accounts)?,
            amount,
        })
    }
}

/// An amount whose parts are within their rules. Nothing of it is kept yet.
#[derive(Drop)]
struct CheckedAmount<'a> {
    units: Units,
    commodity: CommodityPart<'a>,
    cost: Option<CheckedCost<'a>>,
    price: Option<CheckedPrice<'a>>,
}

impl<'a> CheckedAmount<'a> {
    /// Returns what an amount means. The error is the fault of its first part that is outside its rule.
    #[tactic(auto, using(crate::proofs::ItemLemmas::outside_first, crate::proofs::ItemLemmas::outside_later))]
    fn new(names: &KnownNames, form: &AmountForm<'_, 'a>) -> Result<CheckedAmount<'a>, ValueFault>
        requires { FitsPerhaps FitsCost (option_map cost_seen form.now.cost) }
        ensures means { IfOk result
            (λ amount. MeansAmount (amount_seen form.now) (amount_of amount)) }
        ensures inside { OnOk result (AreInside (amount_items (amount_seen form.now))) }
        ensures outside { IfErr result
            (λ fault. FirstOutside (amount_items (amount_seen form.now)) fault) }
    {
        Ok(CheckedAmount {
            units: units(form.units)?,
            commodity: CommodityPart::new(&names.commodities, form.commodity)?,
            cost: CheckedCost::perhaps(names, &form.cost)?,
            price: CheckedPrice::perhaps(names, &form.price)?,
        })
    }

    /// Returns the same, where there is an amount.
    fn perhaps(
        names: &KnownNames,
        form: &Option<AmountForm<'_, 'a>>,
    ) -> Result<Option<CheckedAmount<'a>>, ValueFault>
        requires { FitsPerhaps
            (λ (a : WrittenAmount). FitsPerhaps FitsCost a.cost) (option_map amount_seen form.now) }
        ensures means { IfOk result (λ amount. MeansPerhaps MeansAmount
            (option_map amount_seen form.now) (option_map amount_of amount)) }
        ensures inside { OnOk result
            (AreInside (listed_by amount_items (option_map amount_seen form.now))) }
        ensures outside { IfErr result (λ fault.
            FirstOutside (listed_by amount_items (option_map amount_seen form.now)) fault) }
    {
        match form {
            Some(amount) => match CheckedAmount::new(names, amount) {
                Ok(amount) => Ok(Some(amount)),
                Err(fault) => Err(fault),
            },
            None => Ok(None),
        }
    }

    /// Returns the amount, which is kept. The only error is out of memory.
    fn keep(&self, names: &mut KnownNames) -> Result<Amount, AllocError>
        ensures { IfOk result (λ amount. amount ≡ amount_of self.now) }
    {
        let cost = match &self.cost {
            Some(cost) => Some(cost.keep(names)?),
            None => None,
        };
        let price = match &self.price {
            Some(price) => Some(price.keep(names)?),
            None => None,
        };
        Ok(Amount {
            units: self.units,
            commodity: self.commodity.keep(&mut names.commodities)?,
            cost,
            price,
        })
    }
}
