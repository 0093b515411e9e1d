//! Which numbers have a comma: those of a line of ledger text, and those of the columns of a broker file, or of a statement.

ghost use Rattle.std.specs.Prelude.{◌≡◌, option_map};
ghost use Rattle.csv.specs.Records.{fields_of};
ghost use Rattle.lot_syntax.specs.Cutting.{lexeme_of};
ghost use Rattle.lot_explain.specs.Commas.{first_with_comma, found_at, has_comma, with_comma, with_field, with_record};

use crate::records::{FEE, PRICE, UNITS};
use csv::ByteRecord;
use lot_import::field;
use lot_syntax::{Token, Tokens};

/// Returns the first number with a comma among the tokens of a line.
pub(crate) fn first_with_comma<'a>(tokens: Tokens<'_, 'a>) -> Option<&'a str>
    ensures { option_map (λ number. number.now) result ≡ first_with_comma tokens.entry }
{
    let mut rest = tokens;
    while let Some((token, behind)) = rest.split_first() {
        if let Some(number) = with_comma(token) {
            return Some(number);
        }
        rest = behind;
    }
    None
}

/// Returns what a token says, if it is a number with a comma.
fn with_comma(token: Token<'_>) -> Option<&str>
    ensures { option_map (λ number. number.now) result ≡ with_comma (lexeme_of token.entry) }
{
    match token {
        Token::Number(number) if has_comma(number.as_bytes()) => Some(number),
        _ => None,
    }
}

/// The rows with a comma in a column.
#[derive(Clone, Copy)]
pub(crate) struct Column {
    /// The number of the first, from 1, where there is one.
    pub(crate) first: Option<usize>,
    /// How many there are behind it.
    pub(crate) more: usize,
}

impl Column {
    /// No rows.
    pub(crate) const NONE: Column = Column {
        first: None,
        more: 0,
    };

    /// Returns the same with the row of that number, which has that field.
    pub(crate) fn with(self, row: usize, field: &[u8]) -> Column
        ensures { result ≡ with_field row field.now self }
    {
        if has_comma(field) {
            self.found(row)
        } else {
            self
        }
    }

    /// Returns the same with the row of that number.
    fn found(self, row: usize) -> Column
        ensures { result ≡ found_at row self }
    {
        match self.first {
            None => Column {
                first: Some(row),
                more: self.more,
            },
            Some(first) => Column {
                first: Some(first),
                more: self.more.saturating_add(1),
            },
        }
    }
}

/// The rows with a comma in each of the columns of numbers.
#[derive(Clone, Copy)]
pub(crate) struct Commas {
    pub(crate) units: Column,
    pub(crate) price: Column,
    pub(crate) fee: Column,
}

impl Commas {
    /// No rows.
    pub(crate) const NONE: Commas = Commas {
        units: Column::NONE,
        price: Column::NONE,
        fee: Column::NONE,
    };

    /// Returns the same with the row of that number, which a record says.
    pub(crate) fn with(self, row: usize, written: &ByteRecord) -> Commas
        ensures { result ≡ with_record row (fields_of written.now) self }
    {
        Commas {
            units: self.units.with(row, field(written, UNITS)),
            price: self.price.with(row, field(written, PRICE)),
            fee: self.fee.with(row, field(written, FEE)),
        }
    }
}

/// Returns whether a field has a comma.
fn has_comma(field: &[u8]) -> bool
    ensures { result ≡ has_comma field.now }
{
    field.iter().any(|byte| *byte == b',')
}
