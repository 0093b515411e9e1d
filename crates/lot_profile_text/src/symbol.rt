//! What fields of the column `symbol` mean.
ghost use Rattle.lot_profile_text.specs.Symbols.{commodity_of, symbol_of};

use crate::entry::Form;
use crate::fault::ProfileFault;
use crate::list::Member;
use crate::part::{Part, wrong};
use crate::place::below;
use lot_base::{Commodity, NameFault};
use lot_field::Text;
use lot_profile::Symbol;
use std::alloc::Global;
use toml::Value;

impl Part for Commodity {
    ghost said = { commodity_of };

    fn read(alloc: Global, place: &str, value: &Value) -> Result<Commodity, ProfileFault> {
        let Some(text) = value.as_str() else {
            return Err(wrong(alloc, place, Form::Commodity));
        };
        match Commodity::new(alloc, text) {
            Ok(commodity) => Ok(commodity),
            Err(NameFault::Memory) => Err(ProfileFault::Memory),
            Err(_) => Err(wrong(alloc, place, Form::Commodity)),
        }
    }
}

impl Member for Symbol {
    ghost said_at = { symbol_of };

    fn read(alloc: Global, place: &str, key: &str, value: &Value) -> Result<Symbol, ProfileFault> {
        let place = below(alloc, place, key)?;
        let commodity = Part::read(alloc, place.as_str(), value)?;
        Ok(Symbol {
            field: Text::new(alloc, key)?,
            commodity,
        })
    }
}
