//! How a profile says how days are written.
ghost use Rattle.std.specs.Prelude.{◌≡◌, IfOk};
ghost use Rattle.lot_profile_text.specs.Days.{day_form_in, day_of};

use crate::entry::Form;
use crate::fault::ProfileFault;
use crate::part::{Part, wrong};
use lot_field::{DayForm, DayFormFault};
use std::alloc::{AllocError, Global};
use toml::Value;

impl Part for DayForm {
    ghost said = { day_of };

    fn read(alloc: Global, place: &str, value: &Value) -> Result<DayForm, ProfileFault> {
        let Some(text) = value.as_str() else {
            return Err(wrong(alloc, place, Form::Day));
        };
        match day_form(alloc, text)? {
            Some(form) => Ok(form),
            None => Err(wrong(alloc, place, Form::Day)),
        }
    }
}

/// Returns the form of days that a text writes, or `None` where it writes none. The only error is out of memory.
fn day_form(alloc: Global, text: &str) -> Result<Option<DayForm>, AllocError>
    ensures { IfOk result (λ form. form ≡ day_form_in text.now) }
{
    match DayForm::parse(alloc, text) {
        Ok(form) => Ok(Some(form)),
        Err(DayFormFault::BadForm) => Ok(None),
        Err(DayFormFault::Memory) => Err(AllocError),
    }
}
