//! What is asked of the columns of a line.
ghost use Rattle.std.specs.Prelude.{◌≡◌, true, IfOk};
ghost use Rattle.std.specs.Char.{is_ascii_digit};
ghost use Rattle.std.specs.List.{list_all};
ghost use Rattle.std.specs.Str.Parse.{digits_value};
ghost use Rattle.lot_profile_text.specs.Conditions.{asks_something, column_under, condition_of, counted, test_in, test_said};

use crate::entry::Form;
use crate::fault::ProfileFault;
use crate::list::Member;
use crate::part::{Part, wrong};
use crate::place::below;
use lot_command::Items;
use lot_field::{Test, Text};
use lot_profile::{Column, Condition};
use std::alloc::{AllocError, Global};
use toml::Value;

impl Part for Test {
    ghost said = { test_said };

    fn read(alloc: Global, place: &str, value: &Value) -> Result<Test, ProfileFault> {
        let Some(text) = value.as_str() else {
            return Err(wrong(alloc, place, Form::Test));
        };
        match test_in(alloc, text)? {
            Some(test) => Ok(test),
            None => Err(wrong(alloc, place, Form::Test)),
        }
    }
}

/// Returns the test that a text asks, or `None` where it asks nothing. The only error is out of memory.
#[tactic(auto, unfolding(crate::specs::Conditions::test_in))]
fn test_in(alloc: Global, text: &str) -> Result<Option<Test>, AllocError>
    ensures { IfOk result (λ test. test ≡ test_in text.now) }
{
    let test = Test::parse(alloc, text)?;
    if asks_something(&test) {
        Ok(Some(test))
    } else {
        Ok(None)
    }
}

/// Returns whether a test asks something: `begins:` and `has:` want a text behind them.
fn asks_something(test: &Test) -> bool
    ensures { result ≡ asks_something test.now }
{
    match test {
        Test::Begins(text) => !text.as_str().is_empty(),
        Test::Has(text) => !text.as_str().is_empty(),
        _ => true,
    }
}

impl Member for Condition {
    ghost said_at = { condition_of };

    fn read(
        alloc: Global,
        place: &str,
        key: &str,
        value: &Value,
    ) -> Result<Condition, ProfileFault> {
        let place = below(alloc, place, key)?;
        let Some(column) = column_under(alloc, key)? else {
            return Err(ProfileFault::Wrong(place, Form::Column));
        };
        let tests: Items<Test> = Part::read(alloc, place.as_str(), value)?;
        if tests.as_slice().is_empty() {
            return Err(ProfileFault::Wrong(place, Form::Test));
        }
        Ok(Condition { column, tests })
    }
}

/// Returns the column that a key means: of digits alone its number, from 1, else its name. It is `None` where no column has that
/// number. The only error is out of memory.
#[tactic(auto, unfolding(crate::specs::Conditions::column_under))]
fn column_under(alloc: Global, key: &str) -> Result<Option<Column>, AllocError>
    ensures { IfOk result (λ column. column ≡ column_under key.now) }
{
    if are_digits(key) {
        Ok(counted(key))
    } else {
        Ok(Some(Column::Named(Text::new(alloc, key)?)))
    }
}

/// Returns whether each byte of a text is a digit.
fn are_digits(text: &str) -> bool
    ensures { result ≡ list_all is_ascii_digit text.now }
{
    text.as_bytes().iter().all(|byte| byte.is_ascii_digit())
}

/// Returns the column with the number that digits write, or `None` where no column has it.
fn counted(digits: &str) -> Option<Column>
    requires { list_all is_ascii_digit digits.now ≡ true }
    ensures { result ≡ counted (digits_value 10 digits.now) }
{
    match digits.parse::<usize>() {
        Ok(number) => column(number),
        Err(_) => None,
    }
}

/// Returns the column with a number from 1, or `None` at 0.
fn column(number: usize) -> Option<Column>
    ensures { result ≡ counted number }
{
    if number > 0 {
        Some(Column::Number(number))
    } else {
        None
    }
}
