//! What a profile says of cost, and how far amounts may differ.
ghost use Rattle.std.specs.Prelude.{◌≡◌};
ghost use Rattle.toml.specs.View.{view};
ghost use Rattle.lot_profile_text.specs.Basis.{basis_of, bound_in, bound_of, decimals_in, decimals_of, rounded_of};
ghost use Rattle.lot_profile_text.specs.Reading.{Gives};

use crate::entry::Form;
use crate::fault::ProfileFault;
use crate::keys::{BASIS, COST, REWARDS, ROUNDED, WITHIN};
use crate::list::{Keyed, Member};
use crate::part::{Part, entry, wrong};
use crate::place::below;
use crate::role::may_be_rounded;
use crate::section::section;
use crate::word::named;
use lot_num::Units;
use lot_profile::{Basis, Rounded};
use lot_rounding::{Bound, Decimals};
use std::alloc::Global;
use toml::Value;

impl Part for Basis {
    ghost said = { basis_of };

    fn read(alloc: Global, place: &str, value: &Value) -> Result<Basis, ProfileFault> {
        section(alloc, place, value, BASIS.entries)?;
        let cost = entry(alloc, place, value, &COST)?;
        let within = entry(alloc, place, value, &WITHIN)?;
        let rounded: Keyed<Rounded> = entry(alloc, place, value, &ROUNDED)?;
        let rewards = entry(alloc, place, value, &REWARDS)?;
        Ok(Basis {
            cost,
            within,
            rounded: rounded.into_members(),
            rewards,
        })
    }
}

impl Part for Bound {
    ghost said = { bound_of };

    fn read(alloc: Global, place: &str, value: &Value) -> Result<Bound, ProfileFault> {
        let Some(text) = value.as_str() else {
            return Err(wrong(alloc, place, Form::Bound));
        };
        match bound(text) {
            Some(bound) => Ok(bound),
            None => Err(wrong(alloc, place, Form::Bound)),
        }
    }
}

/// Returns the bound that a number text says, or `None` where it says none.
fn bound(text: &str) -> Option<Bound>
    ensures { result ≡ bound_in text.now }
{
    match Units::parse(text) {
        Ok(units) => Bound::new(units),
        Err(_) => None,
    }
}

impl Member for Rounded {
    ghost said_at = { rounded_of };

    fn read(alloc: Global, place: &str, key: &str, value: &Value) -> Result<Rounded, ProfileFault> {
        let place = below(alloc, place, key)?;
        let Some(role) = named(key) else {
            return Err(ProfileFault::Unknown(place));
        };
        if !may_be_rounded(role) {
            return Err(ProfileFault::Unknown(place));
        }
        Ok(Rounded {
            role,
            decimals: Part::read(alloc, place.as_str(), value)?,
        })
    }
}

impl Part for Decimals {
    ghost said = { decimals_of };

    fn read(alloc: Global, place: &str, value: &Value) -> Result<Decimals, ProfileFault> {
        let Some(number) = value.as_integer() else {
            return Err(wrong(alloc, place, Form::Decimals));
        };
        match decimals(number) {
            Some(decimals) => Ok(decimals),
            None => Err(wrong(alloc, place, Form::Decimals)),
        }
    }
}

/// Returns that many decimals, or `None` where they are too many, or below zero.
fn decimals(number: i64) -> Option<Decimals>
    ensures { result ≡ decimals_in number }
{
    if 0 <= number && number <= 8 {
        Decimals::new(number as u32)
    } else {
        None
    }
}
