//! What the parts of a cost give of a lot.
ghost use Rattle.std.specs.Prelude.{◌≡◌, ℕ, List, flat_map, IfErr, IfOk, OnOk};
ghost use Rattle.lot_syntax.specs.Shape.{listed, parts_seen};
ghost use Rattle.lot_read.specs.Meaning.{Item, IsInside, AreInside, FirstOutside, MeansRate, MeansTotal, part_items, rate_item, total_item};
ghost use Rattle.lot_read.specs.Outside.{IsOutside};
ghost use Rattle.lot_read.specs.Checked.{MeansGiven, either, spec_of};

use crate::fault::ValueFault;
use crate::known::KnownNames;
use crate::name::{CommodityPart, LabelPart};
use crate::value::{Total, day, rate};
use lot_base::Day;
use lot_cost::CostSpec;
use lot_num::Rate;
use lot_syntax::{Part, Parts};
use std::alloc::AllocError;

/// The number of a cost: a rate in single braces, a total in double braces.
pub(crate) trait CostNumber: Drop {
    // What a part means as such a number.
    ghost Means: { List ℕ → Self → Type 0 };

    // The part, as such a number.
    ghost item: { List ℕ → Item };

    /// Returns the number that a part means. The error is `BadNumber`, exactly where it means none.
    fn of_part(part: &str) -> Result<Self, ValueFault>
        ensures means { IfOk result (λ number. Means part.now number) }
        ensures outside { IfErr result (λ fault. IsOutside (item part.now) fault) };

    // What means a number is within its rule.
    ghost inside: { (part : List ℕ) (number : Self) → Means part number → IsInside (item part) };
}

impl CostNumber for Rate {
    ghost Means = { MeansRate };

    ghost item = { rate_item };

    ghost inside = { λ part number means. (number, means) };

    fn of_part(part: &str) -> Result<Rate, ValueFault> {
        rate(part)
    }
}

impl CostNumber for Total {
    ghost Means = { MeansTotal };

    ghost item = { total_item };

    ghost inside = { λ part number means. (number, means) };

    fn of_part(part: &str) -> Result<Total, ValueFault> {
        Total::new(part)
    }
}

/// What the parts of a cost give of a lot, with a number of the kind `N`. Nothing of it is kept yet.
#[derive(Drop)]
pub(crate) struct Given<'a, N: Drop> {
    pub number: Option<N>,
    pub currency: Option<CommodityPart<'a>>,
    pub day: Option<Day>,
    pub label: Option<LabelPart<'a>>,
}

impl<'a, N: CostNumber> Given<'a, N> {
    /// Returns what the parts give. The error is the fault of the first part that is outside its rule.
    #[tactic(auto, using(crate::proofs::GivenLemmas::means_alone, crate::proofs::GivenLemmas::inside_alone, crate::proofs::GivenLemmas::outside_alone))]
    pub(crate) fn new(names: &KnownNames, parts: &Parts<'a>) -> Result<Given<'a, N>, ValueFault>
        ensures means { IfOk result (λ given. MeansGiven N.Means (parts_seen parts.now) given) }
        ensures inside { OnOk result
            (AreInside (flat_map (part_items N.item) (parts_seen parts.now))) }
        ensures outside { IfErr result (λ fault.
            FirstOutside (flat_map (part_items N.item) (parts_seen parts.now)) fault) }
    {
        match (&parts.second, &parts.third) {
            (None, None) => Given::by(names, &parts.first),
            _ => Given::by_all(names, parts),
        }
    }

    /// Returns the same, by each of the three parts.
    #[tactic(auto, using(crate::proofs::GivenLemmas::both_inside_listed, crate::proofs::GivenLemmas::outside_before_listed, crate::proofs::GivenLemmas::outside_behind_listed))]
    fn by_all(names: &KnownNames, parts: &Parts<'a>) -> Result<Given<'a, N>, ValueFault>
        ensures means { IfOk result (λ given. MeansGiven N.Means (parts_seen parts.now) given) }
        ensures inside { OnOk result
            (AreInside (flat_map (part_items N.item) (parts_seen parts.now))) }
        ensures outside { IfErr result (λ fault.
            FirstOutside (flat_map (part_items N.item) (parts_seen parts.now)) fault) }
    {
        let first = Given::by(names, &parts.first)?;
        let second = Given::by(names, &parts.second)?;
        let third = Given::by(names, &parts.third)?;
        Ok(first.or(second.or(third)))
    }

    /// Returns what a part gives, where there is one.
    #[tactic(auto, using(crate::proofs::ItemLemmas::outside_first, crate::proofs::ItemLemmas::outside_later))]
    fn by(names: &KnownNames, part: &Option<Part<'a>>) -> Result<Given<'a, N>, ValueFault>
        ensures means { IfOk result (λ given. MeansGiven N.Means (listed part.now) given) }
        ensures inside { OnOk result (AreInside (flat_map (part_items N.item) (listed part.now))) }
        ensures outside { IfErr result (λ fault.
            FirstOutside (flat_map (part_items N.item) (listed part.now)) fault) }
    {
        match part {
            Some(Part::Money(number, currency)) => {
                let number = N::of_part(number)?;
                let currency = CommodityPart::new(&names.commodities, currency)?;
                Ok(Given {
                    number: Some(number),
                    currency: Some(currency),
                    day: None,
                    label: None,
                })
            }
            Some(Part::Number(number)) => Ok(Given {
                number: Some(N::of_part(number)?),
                currency: None,
                day: None,
                label: None,
            }),
            Some(Part::Currency(currency)) => Ok(Given {
                number: None,
                currency: Some(CommodityPart::new(&names.commodities, currency)?),
                day: None,
                label: None,
            }),
            Some(Part::Day(text)) => Ok(Given {
                number: None,
                currency: None,
                day: Some(day(text)?),
                label: None,
            }),
            Some(Part::Label(label)) => Ok(Given {
                number: None,
                currency: None,
                day: None,
                label: Some(LabelPart::new(&names.labels, label)?),
            }),
            None => Ok(Given {
                number: None,
                currency: None,
                day: None,
                label: None,
            }),
        }
    }

    /// Returns what either gives; where both give something, it is the first one's.
    fn or(self, other: Given<'a, N>) -> Given<'a, N>
        ensures { result ≡ either self.entry other.entry }
    {
        Given {
            number: self.number.or(other.number),
            currency: self.currency.or(other.currency),
            day: self.day.or(other.day),
            label: self.label.or(other.label),
        }
    }

    /// Returns what is given beside the number, which is kept, with that number. The only error is out of memory.
    pub(crate) fn keep(
        &self,
        names: &mut KnownNames,
        number: Option<Rate>,
    ) -> Result<CostSpec, AllocError>
        ensures { IfOk result (λ spec. spec ≡ spec_of number self.now) }
    {
        let currency = match &self.currency {
            Some(currency) => Some(currency.keep(&mut names.commodities)?),
            None => None,
        };
        let label = match &self.label {
            Some(label) => Some(label.keep(&mut names.labels)?),
            None => None,
        };
        Ok(CostSpec {
            number,
            currency,
            day: self.day,
            label,
        })
    }
}
