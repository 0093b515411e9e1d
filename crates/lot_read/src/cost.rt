//! What the parts of a cost mean.
ghost use Rattle.std.specs.Prelude.{◌≡◌, option_map, IfErr, IfOk, OnOk};
ghost use Rattle.lot_syntax.specs.Form.{FitsCost, FitsPerhaps};
ghost use Rattle.lot_syntax.specs.Shape.{cost_seen};
ghost use Rattle.lot_read.specs.Meaning.{AreInside, FirstOutside, MeansCost, MeansPerhaps, cost_items, listed_by};
ghost use Rattle.lot_read.specs.Checked.{cost_of};

use crate::fault::ValueFault;
use crate::given::Given;
use crate::known::KnownNames;
use crate::value::Total;
use lot_cost::{Cost, WholeCost};
use lot_num::Rate;
use lot_syntax::CostForm;
use std::alloc::AllocError;

/// A cost whose parts are within their rules. Nothing of it is kept yet.
#[derive(Drop)]
pub(crate) enum CheckedCost<'a> {
    /// In single braces.
    Each(Given<'a, Rate>),
    /// In double braces: the total, and what is given beside it.
    Whole(Total, Given<'a, Total>),
}

impl<'a> CheckedCost<'a> {
    /// Returns what a cost means. The error is the fault of its first part that is outside its rule.
    pub(crate) fn new(
        names: &KnownNames,
        form: &CostForm<'_, 'a>,
    ) -> Result<CheckedCost<'a>, ValueFault>
        requires { FitsCost (cost_seen form.now) }
        ensures means { IfOk result (λ cost. MeansCost (cost_seen form.now) (cost_of cost)) }
        ensures inside { OnOk result (AreInside (cost_items (cost_seen form.now))) }
        ensures outside { IfErr result
            (λ fault. FirstOutside (cost_items (cost_seen form.now)) fault) }
    {
        match form {
            CostForm::Each(parts) => match Given::new(names, parts) {
                Ok(given) => Ok(CheckedCost::Each(given)),
                Err(fault) => Err(fault),
            },
            CostForm::Whole(parts) => {
                let given: Given<'_, Total> = Given::new(names, parts)?;
                match given.number {
                    Some(total) => Ok(CheckedCost::Whole(total, given)),
                    // One of the parts is a number.
                    None => unreachable!(),
                }
            }
        }
    }

    /// Returns the same, where there is a cost.
    pub(crate) fn perhaps(
        names: &KnownNames,
        form: &Option<CostForm<'_, 'a>>,
    ) -> Result<Option<CheckedCost<'a>>, ValueFault>
        requires { FitsPerhaps FitsCost (option_map cost_seen form.now) }
        ensures means { IfOk result (λ cost.
            MeansPerhaps MeansCost (option_map cost_seen form.now) (option_map cost_of cost)) }
        ensures inside { OnOk result
            (AreInside (listed_by cost_items (option_map cost_seen form.now))) }
        ensures outside { IfErr result
            (λ fault. FirstOutside (listed_by cost_items (option_map cost_seen form.now)) fault) }
    {
        match form {
            Some(cost) => match CheckedCost::new(names, cost) {
                Ok(cost) => Ok(Some(cost)),
                Err(fault) => Err(fault),
            },
            None => Ok(None),
        }
    }

    /// Returns the cost, which is kept. The only error is out of memory.
    pub(crate) fn keep(&self, names: &mut KnownNames) -> Result<Cost, AllocError>
        ensures { IfOk result (λ cost. cost ≡ cost_of self.now) }
    {
        match self {
            CheckedCost::Each(given) => Ok(Cost::Each(given.keep(names, given.number)?)),
            CheckedCost::Whole(total, given) => {
                let spec = given.keep(names, None)?;
                match WholeCost::new(total.units(), spec.currency, spec.day, spec.label) {
                    Some(cost) => Ok(Cost::Whole(cost)),
                    // A total isn't below zero.
                    None => unreachable!(),
                }
            }
        }
    }
}
