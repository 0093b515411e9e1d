//! What may stand under a key of a profile.
ghost use Rattle.std.specs.Prelude.{◌≡◌, [], IfOk, option_map};
ghost use Rattle.toml.specs.Data.{array, item, no_items, string};
ghost use Rattle.toml.specs.View.{view};
ghost use Rattle.lot_profile_text.specs.Reading.{default_of};

use std::alloc::{AllocError, Global};
use toml::Value;
use toml::value::{Array, Table};

/// An entry of a section: what may stand under a key.
#[derive(Clone, Copy)]
pub struct Entry {
    pub key: &'static str,
    /// What has to stand there.
    pub form: Form,
    /// What is meant where nothing stands there.
    pub need: Need,
    /// What it says, in a few words.
    pub says: &'static str,
}

/// What is meant where nothing stands under a key.
#[derive(Clone, Copy)]
pub enum Need {
    /// Something has to stand there.
    Required,
    /// It is the same as that text.
    Text(&'static str),
    /// It is the same as a list of one text, which is empty.
    EmptyText,
    /// It is the same as a list of nothing.
    EmptyList,
    /// It is the same as a table of nothing.
    EmptyTable,
    /// Nothing.
    Optional,
}

/// What has to stand under a key.
#[derive(Clone, Copy, Debug, PartialEq, Eq)]
pub enum Form {
    /// A text.
    Text,
    /// A text that isn't empty.
    SomeText,
    /// A list.
    List,
    /// A list of texts.
    Texts,
    /// A table.
    Table,
    /// A list of tables, at least one.
    Tables,
    /// A text of one character, or of none. The character is no digit, no sign, no parenthesis and not the decimal mark.
    Character,
    /// Signs of currencies: texts that aren't empty, without digits, signs, parentheses, points, commas and blanks.
    CurrencySigns,
    /// How days are written, as `DD-MM-YYYY`.
    Day,
    /// How the line of a header begins, or its number, or 0.
    Header,
    /// The name of a column, its number from 1, or a table that says a constant or the beginning of a field.
    Column,
    /// Under each role a column, or a list of them.
    Sources,
    /// One column alone.
    OneColumn,
    /// The number of a column, since its table has no header.
    ColumnNumber,
    /// What is asked of a field.
    Test,
    /// What is asked of columns: under each, a test or a list of tests.
    Conditions,
    /// An account, in which `{currency}`, `{symbol}` and `{account}` may stand; not in that for crumbs.
    Account,
    /// Under each purpose an account.
    Accounts,
    /// An amount from 0 to 1.
    Bound,
    /// A number of decimals, 0 to 8.
    Decimals,
    /// Under each of some roles a number of decimals.
    RoundedRoles,
    /// A commodity.
    Commodity,
    /// Under each field a commodity.
    Symbols,
    /// A word of the encodings.
    Encoding,
    /// A delimiter.
    Delimiter,
    /// A decimal mark.
    DecimalMark,
    /// A word of the orders.
    Order,
    /// A word of the cost bases.
    CostBasis,
    /// A word of what rewards count as.
    Rewards,
    /// A word of the kinds of rows.
    Kind,
    /// A word of what accounts are for.
    AccountRole,
    /// A word of what columns hold.
    Role,
    /// A word of a role whose sign may be turned.
    TurnedRole,
    /// A list of these.
    TurnedRoles,
}

/// Returns the value that is meant where nothing stands under a key, if there is one. The only error is out of memory.
pub(crate) fn default_value(alloc: Global, need: Need) -> Result<Option<Value>, AllocError>
    ensures { IfOk result (λ value. option_map view value ≡ default_of need) }
{
    match need {
        Need::Text(text) => Ok(Some(Value::string(alloc, text)?)),
        Need::EmptyText => Ok(Some(empty_text(alloc)?)),
        Need::EmptyList => Ok(Some(Value::Array(Array::new(alloc)))),
        Need::EmptyTable => Ok(Some(Value::Table(Table::new(alloc)))),
        Need::Required | Need::Optional => Ok(None),
    }
}

/// Returns a list of one text, which is empty. The only error is out of memory.
fn empty_text(alloc: Global) -> Result<Value, AllocError>
    ensures { IfOk result (λ value. view value ≡ array (item (string []) no_items)) }
{
    let mut items = Array::new(alloc);
    items.push(Value::string(alloc, "")?)?;
    Ok(Value::Array(items))
}
