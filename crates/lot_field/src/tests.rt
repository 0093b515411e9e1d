//! What is asked of a field.
ghost use Rattle.std.specs.Prelude.{◌≡◌, ◌↔◌, ◌++◌, None, Some, IfOk, IsTrue, MatchOption, codes, ℕ, List, pos, ◌<ℤ◌};
ghost use Rattle.std.specs.List.{list_any};
ghost use Rattle.lot_base.specs.Text.{same_text};
ghost use Rattle.lot_field.specs.Field.{cut};
ghost use Rattle.lot_field.specs.Tests.{IsNumberThat, MeansNothing, argument, test_with};

use crate::field::{cut, past_blanks};
use crate::numbers::NumberForm;
use crate::text::Text;
use lot_command::Items;
use lot_num::Units;
use std::alloc::{AllocError, Global};

/// What is asked of a field.
pub enum Test {
    /// It is that text.
    Is(Text),
    /// It begins so.
    Begins(Text),
    /// That text stands in it.
    Has(Text),
    /// It is a number above zero.
    Above,
    /// It is a number below zero.
    Below,
    /// It means no value.
    Nothing,
    /// It means a value.
    Something,
}

impl Drop for Test {
    /// It is written out, so that callers don't prove again how each part is dropped.
    fn drop(self) {
        match self {
            Test::Is(_text) => {}
            Test::Begins(_text) => {}
            Test::Has(_text) => {}
            Test::Above => {}
            Test::Below => {}
            Test::Nothing => {}
            Test::Something => {}
        }
    }
}

impl Test {
    ghost use Rattle.lot_field.specs.Tests.{Holds, test_of};

    /// Returns the test that a text of a profile asks: `> 0`, `< 0`, `nothing`, `something`, `begins: X`, `has: X`, or any
    /// other text, which the field has to be (docs/FORMATS.md, Profiles). The only error is out of memory.
    pub fn parse(alloc: Global, text: &str) -> Result<Test, AllocError>
        ensures { IfOk result (λ test. test ≡ test_of text.now) }
    {
        match text {
            "> 0" => Ok(Test::Above),
            "< 0" => Ok(Test::Below),
            "nothing" => Ok(Test::Nothing),
            "something" => Ok(Test::Something),
            _ => of_text(alloc, text),
        }
    }

    /// Returns whether the test holds of a field, in a file where these texts mean nothing and numbers have that form.
    pub fn holds(&self, nothing: &Items<Text>, form: &NumberForm, field: &str) -> bool
        ensures { IsTrue result ↔ Holds self.now nothing.now form.now field.now }
    {
        match self {
            Test::Is(text) => is(text, field),
            Test::Begins(text) => begins(text, field),
            Test::Has(text) => has(text, field),
            Test::Above => is_above(form, field),
            Test::Below => is_below(form, field),
            Test::Nothing => means_nothing(nothing, field),
            Test::Something => !means_nothing(nothing, field),
        }
    }
}

/// Returns the test of a text that isn't a word.
fn of_text(alloc: Global, text: &str) -> Result<Test, AllocError>
    ensures { IfOk result (λ test.
        test ≡ test_with (argument (codes "begins:") text.now)
        (argument (codes "has:") text.now) text.now) }
{
    if let Some(beginning) = argument("begins:", text) {
        return Ok(Test::Begins(Text::new(alloc, beginning)?));
    }
    if let Some(part) = argument("has:", text) {
        return Ok(Test::Has(Text::new(alloc, part)?));
    }
    Ok(Test::Is(Text::new(alloc, text)?))
}

/// Returns what stands behind a word at the start of a text, without blanks before it.
fn argument<'a>(word: &str, text: &'a str) -> Option<&'a str>
    ensures { MatchOption result (argument word.now text.now ≡ None)
        (λ rest. argument word.now text.now ≡ Some rest.now) }
{
    Some(past_blanks(text.strip_prefix(word)?))
}

/// Returns whether a field means no value: without the blanks at its ends it is one of these texts.
pub fn means_nothing(nothing: &Items<Text>, field: &str) -> bool
    ensures { IsTrue result ↔ MeansNothing nothing.now field.now }
{
    is_among(nothing.as_slice(), cut(field))
}

/// Returns whether a text is one of some texts.
fn is_among(texts: &[Text], text: &str) -> bool
    ensures { result ≡ list_any (λ one. same_text one text.now) texts.now }
{
    texts.iter().any(|one| one.as_str() == text)
}

/// Returns whether a field is that text.
fn is(text: &Text, field: &str) -> bool
    ensures { IsTrue result ↔ (cut field.now ≡ text.now) }
{
    cut(field) == text.as_str()
}

/// Returns whether a field begins with that text.
fn begins(text: &Text, field: &str) -> bool
    ensures { IsTrue result ↔ ((rest : List ℕ) × (cut field.now ≡ text.now ++ rest)) }
{
    cut(field).starts_with(text.as_str())
}

/// Returns whether that text stands in a field.
fn has(text: &Text, field: &str) -> bool
    ensures { IsTrue result ↔ ((front : List ℕ) × (rest : List ℕ)
        × (cut field.now ≡ front ++ (text.now ++ rest))) }
{
    cut(field).contains(text.as_str())
}

/// Returns whether a field is a number above zero.
fn is_above(form: &NumberForm, field: &str) -> bool
    ensures { IsTrue result ↔ IsNumberThat (λ units. pos 0 <ℤ units) form.now field.now }
{
    match form.read(field) {
        Some(number) => is_positive(number.units),
        None => false,
    }
}

/// Returns whether a field is a number below zero.
fn is_below(form: &NumberForm, field: &str) -> bool
    ensures { IsTrue result ↔ IsNumberThat (λ units. units <ℤ pos 0) form.now field.now }
{
    match form.read(field) {
        Some(number) => is_negative(number.units),
        None => false,
    }
}

/// Returns whether units are above zero.
fn is_positive(units: Units) -> bool
    ensures { IsTrue result ↔ (pos 0 <ℤ units) }
{
    units.mantissa() > 0
}

/// Returns whether units are below zero.
fn is_negative(units: Units) -> bool
    ensures { IsTrue result ↔ (units <ℤ pos 0) }
{
    units.mantissa() < 0
}
