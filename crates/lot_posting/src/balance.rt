ghost use Rattle.std.specs.Prelude.{◌≡◌, ◌≢◌, ◌≤◌, ◌*◌, ◌-◌, ◌++◌, ◌+ℤ◌, ◌&&◌, ℕ, suc, ℤ, List, [], ◌∷◌, None, false, true, Some, not, map, unsigned_abs, IfOk, IfErr, OnErr, OnOk};
ghost use Rattle.std.specs.Option.{is_none, option_map};
ghost use Rattle.lot_num.specs.Amount.{IsWide, rate_limit, units_limit};
ghost use Rattle.lot_book.specs.declared.refusal.Refusal.TheVariants.{FillNotAllowed, InexactFill};
ghost use Rattle.lot_book.specs.Balance.{AreWithin, add_weight, fits_units, is_zero, left_over, opposite, residual_in, residuals, weight_at_price, weight_of, weights_by, with_sign};
ghost use Rattle.lot_book.specs.Leg.{units_moved};
ghost use Rattle.lot_book.specs.Refusals.{bars, first_currency, most_postings, not_balanced};

use indexmap::IndexMap;
use lot_base::Commodity;
use lot_book::{Leg, Refusal, Standing};
use lot_command::{Amount, Items, Price};
use lot_num::{Units, Wide, weight};
use std::alloc::{AllocError, Global};
use std::marker::Model;

/// The residuals of what is booked so far: for each currency the sum of the weights in it. Currencies are in the order in which
/// they first appear. A contract sees the currencies, each beside its residual.
#[derive(Drop)]
pub struct Residuals {
    /// The currency that appears first, and its residual. Most transactions have no other.
    first: Option<(Commodity, Wide)>,
    /// The other currencies.
    others: IndexMap<Commodity, Wide>,
}

impl Model for Residuals {
    ghost use Rattle.std.specs.Prelude.{◌≡◌, ℕ, ℤ, List, [], None};
    ghost use Rattle.std.specs.List.{cons_option};

    ghost Value = { List (List ℕ × ℤ) };

    ghost view = { λ r. cons_option r.first r.others.entries };

    ghost invariant = { λ r. r.first ≡ None → r.others.entries ≡ [] };
}

impl Residuals {
    /// Returns the residuals before anything is booked: none.
    pub fn new(alloc: Global) -> Residuals
        ensures { result ≡ [] }
    {
        Residuals {
            first: None,
            others: IndexMap::new(alloc),
        }
    }

    /// Adds the weights of a posting that is booked: with braces those of its legs, else the one at its price. Its legs move
    /// no more than the limit of units, and the residuals leave room for one more posting. The error is out of memory.
    pub(crate) fn weigh(&mut self, amount: &Amount, legs: &[Leg]) -> Result<(), AllocError>
        requires moved { units_moved legs.now ≤ units_limit }
        requires room { AreWithin (most_postings - 1) self.old }
        ensures sum { OnOk result ((weights : List (List ℕ × ℤ)) → self.old ≡ residuals weights
            → self.new ≡ residuals (weights ++ weights_by amount.now.cost amount.now legs.now)) }
        ensures within { OnOk result ((count : ℕ) → AreWithin count self.old
            → AreWithin (suc count) self.new) }
    {
        match &amount.cost {
            Some(_) => self.add_legs(legs),
            None => {
                let (currency, weight) = weight_at_price(amount);
                self.add(currency, weight)
            }
        }
    }

    /// Adds the weights of the legs of one posting. The error is out of memory.
    fn add_legs(&mut self, legs: &[Leg]) -> Result<(), AllocError>
        requires moved { units_moved legs.now ≤ units_limit }
        requires room { AreWithin (most_postings - 1) self.old }
        ensures sum { OnOk result ((weights : List (List ℕ × ℤ)) → self.old ≡ residuals weights
            → self.new ≡ residuals (weights ++ map weight_of legs.now)) }
        ensures within { OnOk result ((count : ℕ) → AreWithin count self.old
            → AreWithin (suc count) self.new) }
    {
        for leg in legs {
            let (currency, weight) = leg.weight();
            self.add(currency, weight)?;
        }
        Ok(())
    }

    /// Adds one more weight to the residual of its currency. The error is out of memory.
    fn add(&mut self, currency: &Commodity, weight: Wide) -> Result<(), AllocError>
        requires { IsWide (residual_in currency.now self.old +ℤ weight) }
        ensures { OnOk result (self.new ≡ add_weight self.old (currency.now, weight)) }
    {
        match &mut self.first {
            None => {
                self.first = Some((currency.copy()?, weight));
                Ok(())
            }
            Some((first, sum)) if *first == *currency => {
                *sum = sum_of(*sum, weight);
                Ok(())
            }
            Some(_) => add_to(&mut self.others, currency, weight),
        }
    }

    /// Returns `NotBalanced` with the first currency whose residual isn't zero, if there is one. The refusal takes over that
    /// currency, so it needs no memory.
    pub fn balanced(self) -> Result<(), Refusal>
        ensures ok { OnOk result (not_balanced [] self ≡ None) }
        ensures refused { IfErr result (λ refusal. not_balanced [] self ≡ Some refusal) }
    {
        let Residuals { first, others } = self;
        if let Some((currency, sum)) = first {
            if sum.mantissa() != 0 {
                return Err(Refusal::NotBalanced { currency });
            }
        }
        for (currency, sum) in others {
            if sum.mantissa() != 0 {
                return Err(Refusal::NotBalanced { currency });
            }
        }
        Ok(())
    }

    /// Returns the currencies, each beside its residual. The only error is out of memory.
    pub fn into_items(self, alloc: Global) -> Result<Items<(Commodity, Wide)>, AllocError>
        ensures { IfOk result (λ items. items ≡ self) }
    {
        let Residuals { first, others } = self;
        let mut items = Items::new(alloc);
        if let Some(residual) = first {
            items.push(residual)?;
        }
        for residual in others {
            items.push(residual)?;
        }
        Ok(items)
    }

    /// Returns whether each residual is that of units.
    pub fn are_units(&self) -> bool
        ensures { result ≡ is_none (first_currency (λ r. not (fits_units r.1)) self.now) }
    {
        if let Some((_, sum)) = &self.first {
            if !is_units(*sum) {
                return false;
            }
        }
        for (_, sum) in &self.others {
            if !is_units(*sum) {
                return false;
            }
        }
        true
    }

    /// Returns `InexactFill` with the first currency whose residual isn't that of units, if there is one. The refusal takes
    /// over that currency, so it needs no memory.
    pub fn exact(self) -> Result<(), Refusal>
        ensures ok { OnOk result (first_currency (λ r. not (fits_units r.1)) self ≡ None) }
        ensures refused { IfErr result (λ refusal.
            option_map InexactFill (first_currency (λ r. not (fits_units r.1)) self)
            ≡ Some refusal) }
    {
        let Residuals { first, others } = self;
        if let Some((currency, sum)) = first {
            if !is_units(sum) {
                return Err(Refusal::InexactFill { currency });
            }
        }
        for (currency, sum) in others {
            if !is_units(sum) {
                return Err(Refusal::InexactFill { currency });
            }
        }
        Ok(())
    }

    /// Returns whether each currency whose residual isn't zero is allowed by the state of an account.
    pub fn are_allowed(&self, standing: &Standing) -> bool
        ensures { result
            ≡ is_none (first_currency (λ r. bars (Some standing.now) r.0) (left_over self.now)) }
    {
        if let Some((currency, sum)) = &self.first {
            if is_barred(standing, currency, *sum) {
                return false;
            }
        }
        for (currency, sum) in &self.others {
            if is_barred(standing, currency, *sum) {
                return false;
            }
        }
        true
    }

    /// Returns `FillNotAllowed` with the first currency that the account doesn't allow and whose residual isn't zero, if there
    /// is one. The refusal takes over that currency, so it needs no memory.
    pub fn allowed(self, standing: &Standing) -> Result<(), Refusal>
        ensures ok { OnOk result
            (first_currency (λ r. bars (Some standing.now) r.0) (left_over self) ≡ None) }
        ensures refused { IfErr result (λ refusal. option_map FillNotAllowed
            (first_currency (λ r. bars (Some standing.now) r.0) (left_over self)) ≡ Some refusal) }
    {
        let Residuals { first, others } = self;
        if let Some((currency, sum)) = first {
            if is_barred(standing, &currency, sum) {
                return Err(Refusal::FillNotAllowed { currency });
            }
        }
        for (currency, sum) in others {
            if is_barred(standing, &currency, sum) {
                return Err(Refusal::FillNotAllowed { currency });
            }
        }
        Ok(())
    }

    /// Returns what the elided posting takes: the opposite of each residual that isn't zero, as units. Each residual is that of
    /// units. The only error is out of memory. It comes only where a residual isn't zero.
    pub fn fills(&self, alloc: Global) -> Result<Vec<(Commodity, Units)>, AllocError>
        requires { first_currency (λ r. not (fits_units r.1)) self.now ≡ None }
        ensures fills { IfOk result
            (λ fills. fills.items ≡ map (λ r. (r.0, opposite r.1)) (left_over self.now)) }
        ensures memory { OnErr result (left_over self.now ≢ []) }
    {
        let mut fills = Vec::new(alloc);
        if let Some((currency, sum)) = &self.first {
            add_fill(&mut fills, currency, *sum)?;
        }
        for (currency, sum) in &self.others {
            add_fill(&mut fills, currency, *sum)?;
        }
        Ok(fills)
    }
}

/// Returns what an amount without braces weighs, with the currency. With a price for each unit it is the units times the rate;
/// with a total it is the total with the sign of the units. Without a price it is the units themselves, in their commodity.
fn weight_at_price(amount: &Amount) -> (&Commodity, Wide)
    ensures value { (result.0.now, result.1)
        ≡ weight_at_price amount.now.commodity amount.now.units amount.now.price }
    ensures bound { unsigned_abs result.1 ≤ units_limit * rate_limit }
{
    let units = amount.units.wide();
    match &amount.price {
        Some(Price::Each(price)) => (&price.currency, weight(amount.units, price.rate)),
        Some(Price::Whole(price)) => (price.currency(), with_sign(amount.units, price.total())),
        None => (&amount.commodity, units),
    }
}

/// Returns the total, at scale 16, with the sign of the units, or zero for zero units.
fn with_sign(units: Units, total: Units) -> Wide
    ensures value { result ≡ with_sign units total }
    ensures bound { unsigned_abs result ≤ units_limit * rate_limit }
{
    if units.mantissa() == 0 {
        Wide::ZERO
    } else if units.mantissa() < 0 {
        total.wide().negated()
    } else {
        total.wide()
    }
}

/// Returns a residual with one more weight.
fn sum_of(sum: Wide, weight: Wide) -> Wide
    requires { IsWide (sum +ℤ weight) }
    ensures { result ≡ sum +ℤ weight }
{
    match sum.checked_add(weight) {
        Some(sum) => sum,
        None => unreachable!(),
    }
}

/// Adds one more weight to the residual of its currency, among residuals. The error is out of memory.
fn add_to(
    residuals: &mut IndexMap<Commodity, Wide>,
    currency: &Commodity,
    weight: Wide,
) -> Result<(), AllocError>
    requires { IsWide (residual_in currency.now residuals.old.entries +ℤ weight) }
    ensures { OnOk result
        (residuals.new.entries ≡ add_weight residuals.old.entries (currency.now, weight)) }
{
    let sum = match residuals.get(currency) {
        Some(sum) => sum_of(*sum, weight),
        None => weight,
    };
    residuals.insert(currency.copy()?, sum)?;
    Ok(())
}

/// Returns whether a residual is that of units.
fn is_units(sum: Wide) -> bool
    ensures { result ≡ fits_units sum }
{
    match sum.to_units() {
        Some(units) => {
            let _in_range = units.mantissa(); // says to the prover that they are below the limit of units
            true
        }
        None => false,
    }
}

/// Returns whether a residual isn't zero, in a currency that the state of an account doesn't allow.
fn is_barred(standing: &Standing, currency: &Commodity, sum: Wide) -> bool
    ensures { result ≡ (not (is_zero sum) && bars (Some standing.now) currency.now) }
{
    sum.mantissa() != 0 && !standing.allowed.allows(currency)
}

/// Adds what takes up a residual, unless that is zero. The residual is that of units. The only error is out of memory. It comes
/// only where the residual isn't zero.
fn add_fill(
    fills: &mut Vec<(Commodity, Units)>,
    currency: &Commodity,
    sum: Wide,
) -> Result<(), AllocError>
    requires { fits_units sum ≡ true }
    ensures fills { OnOk result (fills.new.items
        ≡ fills.old.items
        ++ map (λ r. (r.0, opposite r.1)) (left_over ((currency.now, sum) ∷ []))) }
    ensures memory { OnErr result (is_zero sum ≡ false) }
{
    match sum.to_units() {
        Some(units) if units.mantissa() == 0 => {}
        Some(units) => fills.push((currency.copy()?, units.negated()))?,
        None => unreachable!(),
    }
    Ok(())
}
