ghost use Rattle.std.specs.Prelude.{◌≡◌, ◌++◌, IfOk, OnOk};
ghost use Rattle.std.specs.String.{string_bytes};
ghost use Rattle.lot_tally.specs.Lots.{key_field, key_name, keys_text, separated};

use lot_book::{LotKey, Sale};
use lot_csv::push_field;
use lot_period::{PeriodLength, period_text, term_of};
use std::alloc::{AllocError, Global};

/// What tells the rows of a table of gains apart.
#[derive(Clone, Copy, Debug, PartialEq, Eq)]
pub enum GainKey {
    /// The year of the sale.
    Year,
    /// The commodity of the lots.
    Commodity,
    /// The account from which they were taken.
    Account,
    /// Whether a lot was held up to a year, or over a year.
    Term,
}

impl GainKey {
    /// Returns its word: `year`, `commodity`, `account` or `term`.
    pub fn as_str(self) -> &'static str
        ensures { result.now ≡ key_name self }
    {
        match self {
            GainKey::Year => "year",
            GainKey::Commodity => "commodity",
            GainKey::Account => "account",
            GainKey::Term => "term",
        }
    }
}

/// How a table is written.
#[derive(Clone, Copy, Debug, PartialEq, Eq)]
pub enum TableForm {
    /// Lines to be read, with totals behind the rows.
    Text,
    /// A header and records for a spreadsheet.
    Csv,
}

/// Returns what a lot of a sale has for keys, each field with what separates it from the next one.
/// The only error is out of memory.
pub(crate) fn keys_text(
    alloc: Global,
    by: &[GainKey],
    form: TableForm,
    sale: &Sale,
    lot: &LotKey,
) -> Result<String, AllocError>
    ensures { IfOk result (λ text.
        string_bytes text ≡ keys_text by.now form sale.now lot.now) }
{
    let mut text = String::new(alloc);
    for key in by {
        push_key(alloc, &mut text, *key, form, sale, lot)?;
    }
    Ok(text)
}

/// Appends what a lot of a sale has for a key. The only error is out of memory.
fn push_key(
    alloc: Global,
    text: &mut String,
    key: GainKey,
    form: TableForm,
    sale: &Sale,
    lot: &LotKey,
) -> Result<(), AllocError>
    ensures { OnOk result (string_bytes text.new
        ≡ string_bytes text.old ++ separated form (key_field key sale.now lot.now)) }
{
    match key {
        GainKey::Year => {
            let year = period_text(alloc, PeriodLength::Year, sale.day())?;
            push_separated(text, form, year.as_str())
        }
        GainKey::Commodity => push_separated(text, form, sale.commodity().as_str()),
        GainKey::Account => push_separated(text, form, sale.account().as_str()),
        GainKey::Term => {
            let term = term_of(lot.day, sale.day());
            push_separated(text, form, term.as_str())
        }
    }
}

/// Appends a field, with what separates it from the next one. The only error is out of memory.
fn push_separated(text: &mut String, form: TableForm, field: &str) -> Result<(), AllocError>
    ensures { OnOk result (string_bytes text.new
        ≡ string_bytes text.old ++ separated form field.now) }
{
    match form {
        TableForm::Text => {
            text.push_str(field)?;
            text.push_str(" ")
        }
        TableForm::Csv => {
            push_field(text, field)?;
            text.push_str(",")
        }
    }
}
